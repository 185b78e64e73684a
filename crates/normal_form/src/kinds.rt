//! The kinds of the locals that an expression makes, in the order in which they are made, along the left end of the
//! expression.
ghost use Rattle.std.specs.Prelude.{◌≡◌, ◌++◌, ◌∷◌, [], map, IfOk, OnOk};
ghost use Rattle.std.specs.Option.{option_map};
ghost use Rattle.camelot_tree.specs.Tree.{expression_of, branch_of, expressions, Let, Match};
ghost use Rattle.camelot_tree.specs.Tree as tree;
ghost use Rattle.camelot_tree.specs.Spine.{IsLeaf};
ghost use Rattle.normal_form.specs.Normal.{all_kinds, kinds, tail_kinds};
ghost use Rattle.normal_form.specs.KindParts.{arms_kinds, branch_kinds, kinds_of, kinds_piece};
ghost use Rattle.normal_form.specs.Parts.{first_part};
ghost use Rattle.normal_form.specs.Tables.{signatures_in, source_in};

use crate::appending::append_to;
use crate::known::Known;
use crate::known_kinds::{bind_arm_kinds, bound_kinds, build_kind, call_kind, operator_kind};
use crate::order::arms_in_order;
use camelot_names::Scope;
use camelot_tree::{Arm, Expr, Name, left_spine};
use camelot_values::Kind;
use std::alloc::{AllocError, Global};

/// The kinds of the locals that a part makes, and the kind of its value.
#[derive(Debug, Drop)]
pub(crate) struct PartKinds {
    pub(crate) kinds: Vec<Kind>,
    pub(crate) kind: Kind,
}

// One local more, which has the value.
#[inline(always)]
fn ending(mut kinds: Vec<Kind>, kind: Kind) -> Result<PartKinds, AllocError>
    ensures { IfOk result (λ all. kinds_of all ≡ record { kinds = kinds.items ++ kind ∷ []; kind = kind }) }
{
    kinds.push(kind)?;
    Ok(PartKinds { kinds, kind })
}

// A local for the value of branches, behind what they depend on and before them.
#[inline(always)]
fn branching(on: PartKinds, mut branches: PartKinds) -> Result<PartKinds, AllocError>
    ensures { IfOk result (λ all. kinds_of all ≡ record { kinds = on.kinds.items ++ branches.kind ∷ branches.kinds.items; kind = branches.kind }) }
{
    let kind = branches.kind;
    let mut all = ending(on.kinds, kind)?;
    all.kinds.append(&mut branches.kinds)?;
    Ok(PartKinds {
        kinds: all.kinds,
        kind,
    })
}

// One part and then another, which has the value.
#[inline(always)]
fn following(first: PartKinds, second: PartKinds) -> Result<PartKinds, AllocError>
    ensures { IfOk result (λ all. kinds_of all ≡ record { kinds = first.kinds.items ++ second.kinds.items; kind = second.kind }) }
{
    let mut kinds = first.kinds;
    append_to(&mut kinds, second.kinds)?;
    Ok(PartKinds {
        kinds,
        kind: second.kind,
    })
}

// One local more, which hasn't the value.
#[inline(always)]
fn with_kind(mut first: PartKinds, kind: Kind) -> Result<PartKinds, AllocError>
    ensures { IfOk result (λ all. kinds_of all ≡ record { kinds = first.kinds.items ++ kind ∷ []; kind = first.kind }) }
{
    first.kinds.push(kind)?;
    Ok(first)
}

// Two branches, of which the first gives the kind.
#[inline(always)]
fn either(first: PartKinds, second: PartKinds) -> Result<PartKinds, AllocError>
    ensures { IfOk result (λ all. kinds_of all ≡ record { kinds = first.kinds.items ++ second.kinds.items; kind = first.kind }) }
{
    let mut kinds = first.kinds;
    append_to(&mut kinds, second.kinds)?;
    Ok(PartKinds {
        kinds,
        kind: first.kind,
    })
}

/// The kinds of an expression whose value is wanted.
#[cycle(kinds)]
pub(crate) fn kinds<'a>(
    known: &Known<'_>,
    scope: &mut Scope<'a, Kind>,
    expr: &'a Expr,
) -> Result<PartKinds, AllocError>
    ensures kinds { IfOk result (λ all. kinds_of all ≡ kinds_piece (source_in known.now.typed.now)
        (signatures_in known.now.typed.now) scope.old (expression_of expr.now)) }
    ensures scope { OnOk result (scope.new ≡ scope.old) }
{
    let spine = left_spine(known.alloc, expr)?;
    let mut parents = spine.parents;
    let mut all = leaf_kinds(known, scope, spine.leaf)?;
    'up: while let Some(parent) = parents.pop() {
        all = kinds_around(known, scope, parent, all)?;
    }
    Ok(all)
}

// An operator or a conditional, around its first part.
#[cycle(kinds)]
fn kinds_around<'a>(
    known: &Known<'_>,
    scope: &mut Scope<'a, Kind>,
    parent: &'a Expr,
    first: PartKinds,
) -> Result<PartKinds, AllocError>
    requires { kinds_of first ≡ kinds_piece (source_in known.now.typed.now)
        (signatures_in known.now.typed.now) scope.old (first_part (expression_of parent.now)) }
    ensures kinds { IfOk result (λ all. kinds_of all ≡ kinds_piece (source_in known.now.typed.now)
        (signatures_in known.now.typed.now) scope.old (expression_of parent.now)) }
    ensures scope { OnOk result (scope.new ≡ scope.old) }
{
    match parent {
        Expr::Prim { op, right, .. } => {
            let both = kinds_behind(known, scope, first, right)?;
            ending(both.kinds, operator_kind(*op))
        }
        Expr::If { yes, no, .. } => {
            let yes = kinds(known, scope, yes)?;
            let branches = branching(first, yes)?;
            kinds_behind(known, scope, branches, no)
        }
        _ => Ok(first),
    }
}

// The kinds of an expression behind those of a part, whose value is meant.
#[cycle(kinds)]
fn kinds_behind<'a>(
    known: &Known<'_>,
    scope: &mut Scope<'a, Kind>,
    first: PartKinds,
    expr: &'a Expr,
) -> Result<PartKinds, AllocError>
    ensures kinds { IfOk result (λ all. kinds_of all
        ≡ record {
          kinds = first.kinds.items
              ++ kinds (source_in known.now.typed.now) (signatures_in known.now.typed.now) scope.old
              (expression_of expr.now);
          kind = first.kind;
        }) }
    ensures scope { OnOk result (scope.new ≡ scope.old) }
{
    match expr {
        Expr::Var(_) => Ok(first),
        Expr::Num { .. } => with_kind(first, Kind::Int),
        Expr::Truth { .. } => with_kind(first, Kind::Flag),
        _ => {
            let second = kinds(known, scope, expr)?;
            either(first, second)
        }
    }
}

// The innermost part of a left end.
#[cycle(kinds)]
fn leaf_kinds<'a>(
    known: &Known<'_>,
    scope: &mut Scope<'a, Kind>,
    expr: &'a Expr,
) -> Result<PartKinds, AllocError>
    requires { IsLeaf (expression_of expr.now) }
    ensures kinds { IfOk result (λ all. kinds_of all ≡ kinds_piece (source_in known.now.typed.now)
        (signatures_in known.now.typed.now) scope.old (expression_of expr.now)) }
    ensures scope { OnOk result (scope.new ≡ scope.old) }
{
    match expr {
        Expr::Var(name) => Ok(PartKinds {
            kinds: Vec::new(known.alloc),
            kind: scope.find(name.word.bytes()).unwrap_or(Kind::Int),
        }),
        Expr::Num { .. } => ending(Vec::new(known.alloc), Kind::Int),
        Expr::Truth { .. } => ending(Vec::new(known.alloc), Kind::Flag),
        Expr::Build(build) => {
            let args = args_kinds(known, scope, &build.args)?;
            ending(args, build_kind(known, &build.con))
        }
        Expr::Call(call) => {
            let args = args_kinds(known, scope, &call.args)?;
            ending(args, call_kind(known, &call.fun))
        }
        Expr::Let { name, value, body } => let_kinds(known, scope, name, value, body),
        Expr::Match { on, arms, .. } => match_kinds(known, scope, on, arms),
        Expr::Prim { .. } | Expr::If { .. } => unreachable!(),
    }
}

// A local's value, and what it is for.
#[cycle(kinds)]
fn let_kinds<'a>(
    known: &Known<'_>,
    scope: &mut Scope<'a, Kind>,
    name: &'a Name,
    value: &'a Expr,
    body: &'a Expr,
) -> Result<PartKinds, AllocError>
    ensures kinds { IfOk result (λ all. kinds_of all ≡ kinds_piece (source_in known.now.typed.now)
        (signatures_in known.now.typed.now) scope.old
        (Let name.now (expression_of value.now) (expression_of body.now))) }
    ensures scope { OnOk result (scope.new ≡ scope.old) }
{
    let first = kinds(known, scope, value)?;
    let len = scope.len();
    scope.bind(name.word.bytes(), first.kind)?;
    let second = kinds(known, scope, body)?;
    scope.leave(len);
    following(first, second)
}

/// The kinds of arguments.
#[cycle(kinds)]
pub(crate) fn args_kinds<'a>(
    known: &Known<'_>,
    scope: &mut Scope<'a, Kind>,
    args: &'a [Expr],
) -> Result<Vec<Kind>, AllocError>
    ensures kinds { IfOk result (λ all. all.items ≡ all_kinds (source_in known.now.typed.now)
        (signatures_in known.now.typed.now) scope.old (expressions (map expression_of args.now))) }
    ensures scope { OnOk result (scope.new ≡ scope.old) }
{
    let mut all = Vec::new(known.alloc);
    'args: for arg in args {
        let next = kinds(known, scope, arg)?;
        append_to(&mut all, next.kinds)?;
    }
    Ok(all)
}

// A scrutinee and its arms.
#[cycle(kinds)]
fn match_kinds<'a>(
    known: &Known<'_>,
    scope: &mut Scope<'a, Kind>,
    on: &'a Expr,
    arms: &'a [Arm],
) -> Result<PartKinds, AllocError>
    ensures kinds { IfOk result (λ all. kinds_of all ≡ kinds_piece (source_in known.now.typed.now)
        (signatures_in known.now.typed.now) scope.old
        (Match (expression_of on.now) (tree.arms (map branch_of arms.now)) 0)) }
    ensures scope { OnOk result (scope.new ≡ scope.old) }
{
    let on = kinds(known, scope, on)?;
    let branches = all_arm_kinds(known, scope, arms)?;
    branching(on, branches)
}

// An arm, where there is one for the constructor.
#[cycle(kinds)]
fn arm_kinds<'a>(
    known: &Known<'_>,
    scope: &mut Scope<'a, Kind>,
    arm: Option<&'a Arm>,
) -> Result<PartKinds, AllocError>
    ensures kinds { IfOk result (λ all. kinds_of all ≡ branch_kinds (source_in known.now.typed.now)
        (signatures_in known.now.typed.now) scope.old (option_map (λ a. branch_of a.now) arm.entry)) }
    ensures scope { OnOk result (scope.new ≡ scope.old) }
{
    let Some(arm) = arm else {
        return Ok(PartKinds {
            kinds: Vec::new(known.alloc),
            kind: Kind::Int,
        });
    };
    let bound = PartKinds {
        kinds: bound_kinds(known, arm)?,
        kind: Kind::Int,
    };
    let len = scope.len();
    bind_arm_kinds(known, scope, arm)?;
    let body = kinds(known, scope, &arm.body)?;
    scope.leave(len);
    following(bound, body)
}

// All arms, of which the first gives the kind.
#[cycle(kinds)]
fn all_arm_kinds<'a>(
    known: &Known<'_>,
    scope: &mut Scope<'a, Kind>,
    arms: &'a [Arm],
) -> Result<PartKinds, AllocError>
    ensures kinds { IfOk result (λ all. kinds_of all ≡ arms_kinds (source_in known.now.typed.now)
        (signatures_in known.now.typed.now) scope.old (tree.arms (map branch_of arms.now))) }
    ensures scope { OnOk result (scope.new ≡ scope.old) }
{
    let order = arms_in_order(known, arms)?;
    let mut all = Vec::new(known.alloc);
    let mut kind = None;
    'arms: for arm in &order {
        let mut next = arm_kinds(known, scope, *arm)?;
        if kind.is_none() {
            kind = Some(next.kind);
        }
        all.append(&mut next.kinds)?;
    }
    Ok(PartKinds {
        kinds: all,
        kind: kind.unwrap_or(Kind::Int),
    })
}
