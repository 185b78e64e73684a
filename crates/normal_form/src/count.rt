//! How many locals and blocks an expression needs, in numbers that can't overflow, so that a function that is too large
//! is refused before anything is written.
ghost use Rattle.std.specs.Prelude.{◌≡◌, map, IfOk};
ghost use Rattle.std.specs.Option.{option_map};
ghost use Rattle.camelot_tree.specs.Tree.{expression_of, branch_of, expressions};
ghost use Rattle.camelot_tree.specs.Tree as tree;
ghost use Rattle.camelot_tree.specs.Spine.{IsLeaf};
ghost use Rattle.normal_form.specs.Tables.{source_in};
ghost use Rattle.normal_form.specs.Counts.{all_counts, arms_counts, branch_counts, counts_of, rest_counts, counted, bound_counts};

use crate::counts::Counts;
use crate::known::Known;
use crate::order::arms_in_order;
use camelot_tree::{Arm, ArmCell, Expr, left_spine};
use std::alloc::AllocError;

/// The counts of an expression whose value is wanted, along its left end.
#[cycle(count)]
pub(crate) fn count(known: &Known<'_>, expr: &Expr) -> Result<Counts, AllocError>
    ensures { IfOk result (λ counts. counts ≡ counts_of (source_in known.now.typed.now) (expression_of expr.now)) }
{
    let spine = left_spine(known.alloc, expr)?;
    let mut parents = spine.parents;
    let mut counts = count_leaf(known, spine.leaf)?;
    'up: while let Some(parent) = parents.pop() {
        counts = counts.and(count_rest(known, parent)?);
    }
    Ok(counts)
}

// The counts of an operator or a conditional behind its first part.
#[cycle(count)]
fn count_rest(known: &Known<'_>, parent: &Expr) -> Result<Counts, AllocError>
    ensures { IfOk result (λ counts. counts ≡ rest_counts (source_in known.now.typed.now) (expression_of parent.now)) }
{
    match parent {
        Expr::Prim { right, .. } => Ok(count(known, right)?.and(Counts::new(1, 0))),
        Expr::If { yes, no, .. } => {
            let first = count(known, yes)?;
            let second = count(known, no)?;
            Ok(first.and(second).and(Counts::new(1, 3)))
        }
        _ => Ok(Counts::new(0, 0)),
    }
}

// The counts of the innermost part of a left end.
#[cycle(count)]
fn count_leaf(known: &Known<'_>, expr: &Expr) -> Result<Counts, AllocError>
    requires { IsLeaf (expression_of expr.now) }
    ensures { IfOk result (λ counts. counts ≡ counts_of (source_in known.now.typed.now) (expression_of expr.now)) }
{
    match expr {
        Expr::Var(_) => Ok(Counts::new(0, 0)),
        Expr::Num { .. } | Expr::Truth { .. } => Ok(Counts::new(1, 0)),
        Expr::Build(build) => Ok(count_all(known, &build.args)?.and(Counts::new(1, 0))),
        Expr::Call(call) => Ok(count_all(known, &call.args)?.and(Counts::new(1, 0))),
        Expr::Let { value, body, .. } => {
            let first = count(known, value)?;
            let second = count(known, body)?;
            Ok(first.and(second))
        }
        Expr::Match { on, arms, .. } => {
            let first = count(known, on)?;
            let second = count_arms(known, arms)?;
            Ok(first.and(second).and(Counts::new(1, 1)))
        }
        Expr::Prim { .. } | Expr::If { .. } => unreachable!(),
    }
}

/// The counts of arguments.
#[cycle(count)]
pub(crate) fn count_all(known: &Known<'_>, args: &[Expr]) -> Result<Counts, AllocError>
    ensures { IfOk result (λ counts. counts ≡ all_counts (source_in known.now.typed.now) (expressions (map expression_of args.now))) }
{
    let mut counts = Counts::new(0, 0);
    'args: for arg in args {
        counts = counts.and(count(known, arg)?);
    }
    Ok(counts)
}

/// What an arm makes at its beginning.
pub(crate) fn count_bound(arm: &Arm) -> Counts
    ensures { result ≡ bound_counts (branch_of arm.now) }
{
    let fields = Counts::new(arm.fields.len(), 0);
    match arm.cell {
        ArmCell::Keep(_) => fields.and(Counts::new(1, 0)),
        ArmCell::Plain | ArmCell::Free => fields,
    }
}

// The counts of an arm in a value's position, where there is one.
#[cycle(count)]
fn count_arm(known: &Known<'_>, arm: Option<&Arm>) -> Result<Counts, AllocError>
    ensures { IfOk result (λ counts. counts ≡ branch_counts (source_in known.now.typed.now) (option_map (λ a. branch_of a.now) arm.entry)) }
{
    match arm {
        None => Ok(Counts::new(0, 0)),
        Some(arm) => Ok(
            count_bound(arm)
                .and(count(known, &arm.body)?)
                .and(Counts::new(0, 1)),
        ),
    }
}

// The counts of all arms in a value's position.
#[cycle(count)]
fn count_arms(known: &Known<'_>, arms: &[Arm]) -> Result<Counts, AllocError>
    ensures { IfOk result (λ counts. counts ≡ arms_counts (source_in known.now.typed.now) (tree.arms (map branch_of arms.now))) }
{
    let order = arms_in_order(known, arms)?;
    let mut counts = Counts::new(0, 0);
    'arms: for arm in &order {
        counts = counts.and(count_arm(known, *arm)?);
    }
    Ok(counts)
}
