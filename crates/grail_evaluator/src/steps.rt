ghost use Rattle.std.specs.Prelude.{◌≡◌, ℕ, ◌-◌, ◌≤◌, IfOk, MatchOption, Some, map};
ghost use Rattle.std.specs.Option.{option_map};
ghost use Rattle.camelot_values.specs.Kinds.{place_of};
ghost use Rattle.camelot_values.specs.Value.{Con, Dia, parts};
ghost use Rattle.camelot_values.specs.Operator.{Div, Mod, on_ints};
ghost use Rattle.camelot_values.specs.Outcome.{at_once, known};
ghost use Rattle.grail_code.specs.Code.{arm_of, operator_of};
ghost use Rattle.grail_code.specs.Meaning.{arm_at, built, operands};
ghost use Rattle.grail_evaluator.specs.Trees.{plain, plain_all};
ghost use Rattle.grail_evaluator.specs.Locals.{env_of, int_at, flag_at, IsDiamond, IsNoCon};
ghost use Rattle.grail_evaluator.specs.Ends.{reached_of, computed, onto, most_cells, Stepped, OnReached};

use super::counts::Counts;
use super::locals::{Bound, value_of};
use super::outcome::Reached;
use super::tree::Tree;
use camelot_values::Types;
use grail_code::{CaseArm, Place, PrimCode};
use std::alloc::{AllocError, Global};

/// A diamond.
pub(crate) fn a_diamond() -> Tree
    ensures { plain result ≡ Dia }
{
    Tree::Dia
}

/// A value at no cost.
#[tactic(auto, using(crate::proofs::StepLaws::onto_once))]
pub(crate) fn at_once(counts: Counts, value: Tree) -> Reached
    ensures means { reached_of result ≡ onto counts (at_once (plain value)) }
    ensures used { OnReached (Stepped 0 counts) result }
{
    Reached::Done { value, counts }
}

// What division makes of two ints; nothing, where it is by 0.
fn divided(left: i32, right: i32) -> Option<Tree>
    ensures { computed result ≡ on_ints Div left right }
{
    if right == 0 {
        return None;
    }
    Some(Tree::Int(left.wrapping_div(right)))
}

// What is left by division; nothing, where it is by 0.
fn left_over(left: i32, right: i32) -> Option<Tree>
    ensures { computed result ≡ on_ints Mod left right }
{
    if right == 0 {
        return None;
    }
    Some(Tree::Int(left.wrapping_rem(right)))
}

// What the operator makes of two ints; nothing, where it is trapped.
fn on_ints(op: PrimCode, left: i32, right: i32) -> Option<Tree>
    ensures { computed result ≡ on_ints (operator_of op) left right }
{
    match op {
        PrimCode::Add => Some(Tree::Int(left.wrapping_add(right))),
        PrimCode::Sub => Some(Tree::Int(left.wrapping_sub(right))),
        PrimCode::Mul => Some(Tree::Int(left.wrapping_mul(right))),
        PrimCode::Div => divided(left, right),
        PrimCode::Mod => left_over(left, right),
        PrimCode::Eq => Some(Tree::Flag(left == right)),
        PrimCode::Ne => Some(Tree::Flag(left != right)),
        PrimCode::Lt => Some(Tree::Flag(left < right)),
        PrimCode::Le => Some(Tree::Flag(left <= right)),
        PrimCode::Gt => Some(Tree::Flag(left > right)),
        PrimCode::Ge => Some(Tree::Flag(left >= right)),
    }
}

// The int in a local, if there is one.
fn int_of(env: &[Bound], local: u32) -> Option<i32>
    ensures { result ≡ int_at (env_of env.now local) }
{
    match value_of(env, local) {
        Some(Tree::Int(number)) => Some(*number),
        _ => None,
    }
}

/// The truth value in a local, if there is one.
pub(crate) fn flag_of(env: &[Bound], local: u32) -> Option<bool>
    ensures { result ≡ flag_at (env_of env.now local) }
{
    match value_of(env, local) {
        Some(Tree::Flag(truth)) => Some(*truth),
        _ => None,
    }
}

// Whether there is a diamond in the local.
fn is_diamond(env: &[Bound], local: u32) -> bool
    ensures { IsDiamond result (env_of env.now local) }
{
    match value_of(env, local) {
        Some(Tree::Dia) => true,
        _ => false,
    }
}

/// An operator on two locals.
#[tactic(auto, using(crate::proofs::StepLaws::no_left, crate::proofs::StepLaws::no_right, crate::proofs::StepLaws::both, crate::proofs::StepLaws::both_trapped))]
pub(crate) fn operate(counts: Counts, env: &[Bound], op: PrimCode, left: u32, right: u32) -> Reached
    ensures means { reached_of result ≡ onto counts (operands (operator_of op) (env_of env.now left) (env_of env.now right)) }
    ensures used { OnReached (Stepped 0 counts) result }
{
    match int_of(env, left) {
        Some(left) => match int_of(env, right) {
            Some(right) => match on_ints(op, left, right) {
                Some(value) => at_once(counts, value),
                None => Reached::Trap(counts),
            },
            None => Reached::Stuck,
        },
        None => Reached::Stuck,
    }
}

/// A constructor's value, in no cell, in a new one or in that of a diamond.
#[tactic(auto, using(crate::proofs::StepLaws::in_new, crate::proofs::StepLaws::in_diamond, crate::proofs::StepLaws::no_diamond))]
pub(crate) fn build(
    counts: Counts,
    env: &[Bound],
    con: u32,
    args: Vec<Tree>,
    place: Place,
) -> Reached
    requires { counts.peak ≤ most_cells }
    ensures means { reached_of result ≡ onto counts (built con (plain_all args.items) place (env_of env.now)) }
    ensures used { OnReached (Stepped 1 counts) result }
{
    let value = Tree::Con { con, parts: args };
    match place {
        Place::Inline => at_once(counts, value),
        Place::New => Reached::Done {
            value,
            counts: counts.taken(),
        },
        Place::Reuse(diamond) => {
            if is_diamond(env, diamond) {
                at_once(counts, value)
            } else {
                Reached::Stuck
            }
        }
    }
}

/// The value of a local.
pub(crate) fn copied(
    alloc: Global,
    counts: Counts,
    env: &[Bound],
    local: u32,
) -> Result<Reached, AllocError>
    ensures means { IfOk result (λ reached. reached_of reached ≡ onto counts (known (env_of env.now local))) }
    ensures used { IfOk result (OnReached (Stepped 0 counts)) }
{
    match value_of(env, local) {
        Some(value) => {
            let value = value.copy(alloc)?;
            Ok(at_once(counts, value))
        }
        None => Ok(Reached::Stuck),
    }
}

/// A constructor and its parts.
#[derive(Drop)]
pub(crate) struct Matched {
    pub(crate) con: u32,
    pub(crate) parts: Vec<Tree>,
}

/// The constructor in a local, if there is one.
pub(crate) fn matched_at(
    alloc: Global,
    env: &[Bound],
    local: u32,
) -> Result<Option<Matched>, AllocError>
    ensures { IfOk result (λ found. MatchOption found (IsNoCon (env_of env.now local))
        (λ m. env_of env.now local ≡ Some (Con m.con (parts (plain_all m.parts.items))))) }
{
    match value_of(env, local) {
        Some(value) => match value.copy(alloc)? {
            Tree::Con { con, parts } => Ok(Some(Matched { con, parts })),
            _ => Ok(None),
        },
        None => Ok(None),
    }
}

/// The arm of the constructor of this number, if there is one.
pub(crate) fn arm_for<'a>(types: &Types, arms: &'a [CaseArm], con: u32) -> Option<&'a CaseArm>
    ensures { option_map (λ arm. arm_of arm.now) result ≡ arm_at (map arm_of arms.now) (place_of types.now con) }
{
    match types.place_of(con) {
        Some(place) => arms.get(place as usize),
        None => None,
    }
}
