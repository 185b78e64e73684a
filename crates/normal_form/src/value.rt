//! The lines that give an expression's value, by the cases of the normal form, along the left end of the expression.
//! What locals and blocks an expression needs is known to fit.
ghost use Rattle.std.specs.Prelude.{◌≡◌, ◌+◌, ◌<◌, ◌≤◌, map, IfOk, OnOk};
ghost use Rattle.std.specs.Option.{option_map};
ghost use Rattle.camelot_tree.specs.Tree.{expression_of, branch_of, built_of, called_of, expressions, Let, Match};
ghost use Rattle.camelot_tree.specs.Tree as tree;
ghost use Rattle.camelot_tree.specs.Spine.{IsLeaf};
ghost use Rattle.normal_form.specs.Normal.{all_ends, all_made, arm_ends, arm_made, cons_of, ends, made, total};
ghost use Rattle.normal_form.specs.Counts.{branch_ends, branch_made};
ghost use Rattle.normal_form.specs.Parts.{arm_and, arms_of, arms_piece, behind, branches_piece, first_part, line_of, piece_of, pieces_of, value_piece, values_piece};
ghost use Rattle.normal_form.specs.Tables.{source_in};

use crate::known::Known;
use crate::order::arms_in_order;
use crate::part::{
    Args, Arms, At, Line, Part, bound, conditional, conditional_literal, followed, matched,
    missing, operator, sequence,
};
use crate::scopes::{bind_arm, bound_of, case_of, con_of, fun_of, local_of, place_of, prim_code};
use camelot_names::Scope;
use camelot_tree::{Arm, Build, Call, Expr, Name, left_spine};
use grail_blocks::Op;
use std::alloc::AllocError;

/// What gives the value of an expression that begins here.
#[cycle(value)]
pub(crate) fn value<'a>(
    known: &Known<'_>,
    scope: &mut Scope<'a, u32>,
    at: At,
    expr: &'a Expr,
) -> Result<Part, AllocError>
    requires locals { at.next + made (source_in known.now.typed.now) (expression_of expr.now) ≤ 256 }
    requires ended { at.number + ends (source_in known.now.typed.now) (expression_of expr.now) ≤ 256 }
    ensures part { IfOk result (λ part. piece_of part ≡ value_piece (source_in known.now.typed.now) scope.old at.next at.number (expression_of expr.now)) }
    ensures scope { OnOk result (scope.new ≡ scope.old) }
{
    let spine = left_spine(known.alloc, expr)?;
    let mut parents = spine.parents;
    let mut part = value_leaf(known, scope, at, spine.leaf)?;
    'up: while let Some(parent) = parents.pop() {
        part = value_around(known, scope, at, parent, part)?;
    }
    Ok(part)
}

// The innermost part of a left end.
#[cycle(value)]
fn value_leaf<'a>(
    known: &Known<'_>,
    scope: &mut Scope<'a, u32>,
    at: At,
    expr: &'a Expr,
) -> Result<Part, AllocError>
    requires leaf { IsLeaf (expression_of expr.now) }
    requires locals { at.next + made (source_in known.now.typed.now) (expression_of expr.now) ≤ 256 }
    requires ended { at.number + ends (source_in known.now.typed.now) (expression_of expr.now) ≤ 256 }
    ensures part { IfOk result (λ part. piece_of part ≡ value_piece (source_in known.now.typed.now) scope.old at.next at.number (expression_of expr.now)) }
    ensures scope { OnOk result (scope.new ≡ scope.old) }
{
    match expr {
        Expr::Var(name) => Ok(Part {
            lines: Vec::new(known.alloc),
            end: at,
            local: local_of(scope, name),
        }),
        Expr::Num { value, .. } => bound(Vec::new(known.alloc), at, Op::Lit(*value)),
        Expr::Truth { value, .. } => bound(Vec::new(known.alloc), at, Op::Flag(*value)),
        Expr::Build(build) => value_build(known, scope, at, build),
        Expr::Call(call) => value_call(known, scope, at, call),
        Expr::Let { name, value, body } => value_let(known, scope, at, name, value, body),
        Expr::Match { on, arms, .. } => value_match(known, scope, at, on, arms),
        Expr::Prim { .. } | Expr::If { .. } => unreachable!(),
    }
}

// An operator or a conditional, around its first part.
#[cycle(value)]
fn value_around<'a>(
    known: &Known<'_>,
    scope: &mut Scope<'a, u32>,
    at: At,
    parent: &'a Expr,
    first: Part,
) -> Result<Part, AllocError>
    requires first { piece_of first ≡ value_piece (source_in known.now.typed.now) scope.old at.next at.number (first_part (expression_of parent.now)) }
    requires locals { at.next + made (source_in known.now.typed.now) (expression_of parent.now) ≤ 256 }
    requires ended { at.number + ends (source_in known.now.typed.now) (expression_of parent.now) ≤ 256 }
    ensures part { IfOk result (λ part. piece_of part ≡ value_piece (source_in known.now.typed.now) scope.old at.next at.number (expression_of parent.now)) }
    ensures scope { OnOk result (scope.new ≡ scope.old) }
{
    match parent {
        Expr::Prim { op, right, .. } => {
            let left = first.local;
            let both = value_behind(known, scope, first.lines, first.end, right)?;
            operator(left, both, prim_code(*op))
        }
        Expr::If { yes, no, .. } => value_branches(known, scope, first, yes, no),
        _ => Ok(first),
    }
}

// What gives the value of an expression, behind these lines. A local that is there needs no lines, and a literal no
// list of its own.
#[cycle(value)]
fn value_behind<'a>(
    known: &Known<'_>,
    scope: &mut Scope<'a, u32>,
    lines: Vec<Line>,
    at: At,
    expr: &'a Expr,
) -> Result<Part, AllocError>
    requires locals { at.next + made (source_in known.now.typed.now) (expression_of expr.now) ≤ 256 }
    requires ended { at.number + ends (source_in known.now.typed.now) (expression_of expr.now) ≤ 256 }
    ensures part { IfOk result (λ part. piece_of part ≡ behind (map line_of lines.items)
        (value_piece (source_in known.now.typed.now) scope.old at.next at.number (expression_of expr.now))) }
    ensures scope { OnOk result (scope.new ≡ scope.old) }
{
    match expr {
        Expr::Var(name) => Ok(Part {
            lines,
            end: at,
            local: local_of(scope, name),
        }),
        Expr::Num { value, .. } => bound(lines, at, Op::Lit(*value)),
        Expr::Truth { value, .. } => bound(lines, at, Op::Flag(*value)),
        _ => {
            let part = value(known, scope, at, expr)?;
            followed(lines, part)
        }
    }
}

// A conditional behind its condition.
#[cycle(value)]
fn value_branches<'a>(
    known: &Known<'_>,
    scope: &mut Scope<'a, u32>,
    cond: Part,
    yes: &'a Expr,
    no: &'a Expr,
) -> Result<Part, AllocError>
    requires locals { let p = source_in known.now.typed.now in cond.end.next + (made p (expression_of yes.now) + made p (expression_of no.now)) < 256 }
    requires ended { let p = source_in known.now.typed.now in cond.end.number + (ends p (expression_of yes.now) + ends p (expression_of no.now)) + 3 ≤ 256 }
    ensures part { IfOk result (λ part. piece_of part ≡ branches_piece (source_in known.now.typed.now) scope.old
        (piece_of cond) (expression_of yes.now) (expression_of no.now)) }
    ensures scope { OnOk result (scope.new ≡ scope.old) }
{
    let first_at = At {
        next: cond.end.next + 1,
        number: cond.end.number + 1,
    };
    let first = value(known, scope, first_at, yes)?;
    let second_at = At {
        next: first.end.next,
        number: first.end.number + 1,
    };
    match no {
        Expr::Truth { value, .. } => conditional_literal(cond, first, Op::Flag(*value)),
        _ => {
            let second = value(known, scope, second_at, no)?;
            conditional(cond, first, second)
        }
    }
}

// A constructor with its arguments.
#[cycle(value)]
fn value_build<'a>(
    known: &Known<'_>,
    scope: &mut Scope<'a, u32>,
    at: At,
    build: &'a Build,
) -> Result<Part, AllocError>
    requires locals { at.next + made (source_in known.now.typed.now) (built_of build.now) ≤ 256 }
    requires ended { at.number + ends (source_in known.now.typed.now) (built_of build.now) ≤ 256 }
    ensures part { IfOk result (λ part. piece_of part ≡ value_piece (source_in known.now.typed.now) scope.old at.next at.number (built_of build.now)) }
    ensures scope { OnOk result (scope.new ≡ scope.old) }
{
    let args = value_args(known, scope, at, &build.args)?;
    let con = con_of(known, &build.con);
    let make = Op::Make {
        con,
        args: args.locals,
        place: place_of(known, scope, con, &build.place),
    };
    bound(args.lines, args.end, make)
}

// A call that isn't in tail position.
#[cycle(value)]
fn value_call<'a>(
    known: &Known<'_>,
    scope: &mut Scope<'a, u32>,
    at: At,
    call: &'a Call,
) -> Result<Part, AllocError>
    requires locals { at.next + made (source_in known.now.typed.now) (called_of call.now) ≤ 256 }
    requires ended { at.number + ends (source_in known.now.typed.now) (called_of call.now) ≤ 256 }
    ensures part { IfOk result (λ part. piece_of part ≡ value_piece (source_in known.now.typed.now) scope.old at.next at.number (called_of call.now)) }
    ensures scope { OnOk result (scope.new ≡ scope.old) }
{
    let args = value_args(known, scope, at, &call.args)?;
    let op = Op::Call {
        func: fun_of(known, &call.fun),
        args: args.locals,
    };
    bound(args.lines, args.end, op)
}

// A local's value, and what it is for.
#[cycle(value)]
fn value_let<'a>(
    known: &Known<'_>,
    scope: &mut Scope<'a, u32>,
    at: At,
    name: &'a Name,
    value_of: &'a Expr,
    body: &'a Expr,
) -> Result<Part, AllocError>
    requires locals { let p = source_in known.now.typed.now in at.next + (made p (expression_of value_of.now) + made p (expression_of body.now)) ≤ 256 }
    requires ended { let p = source_in known.now.typed.now in at.number + (ends p (expression_of value_of.now) + ends p (expression_of body.now)) ≤ 256 }
    ensures part { IfOk result (λ part. piece_of part ≡ value_piece
        (source_in known.now.typed.now) scope.old at.next at.number
        (Let name.now (expression_of value_of.now) (expression_of body.now))) }
    ensures scope { OnOk result (scope.new ≡ scope.old) }
{
    let first = value(known, scope, at, value_of)?;
    let len = scope.len();
    scope.bind(name.word.bytes(), first.local)?;
    let second = value(known, scope, first.end, body)?;
    scope.leave(len);
    sequence(first, second)
}

/// The values of arguments, from left to right.
#[cycle(value)]
pub(crate) fn value_args<'a>(
    known: &Known<'_>,
    scope: &mut Scope<'a, u32>,
    at: At,
    args: &'a [Expr],
) -> Result<Args, AllocError>
    requires locals { at.next + all_made (source_in known.now.typed.now) (expressions (map expression_of args.now)) ≤ 256 }
    requires ended { at.number + all_ends (source_in known.now.typed.now) (expressions (map expression_of args.now)) ≤ 256 }
    ensures args { IfOk result (λ all. pieces_of all ≡ values_piece
        (source_in known.now.typed.now) scope.old at.next at.number (expressions (map expression_of args.now))) }
    ensures scope { OnOk result (scope.new ≡ scope.old) }
{
    let mut all = Args::new(known.alloc, at);
    'args: for arg in args {
        let part = value(known, scope, all.end, arg)?;
        all = all.and(part)?;
    }
    Ok(all)
}

// A scrutinee and its arms.
#[cycle(value)]
fn value_match<'a>(
    known: &Known<'_>,
    scope: &mut Scope<'a, u32>,
    at: At,
    on: &'a Expr,
    arms: &'a [Arm],
) -> Result<Part, AllocError>
    requires locals { at.next + made (source_in known.now.typed.now) (Match (expression_of on.now) (tree.arms (map branch_of arms.now)) 0) ≤ 256 }
    requires ended { at.number + ends (source_in known.now.typed.now) (Match (expression_of on.now) (tree.arms (map branch_of arms.now)) 0) ≤ 256 }
    ensures part { IfOk result (λ part. piece_of part ≡ value_piece
        (source_in known.now.typed.now) scope.old at.next at.number
        (Match (expression_of on.now) (tree.arms (map branch_of arms.now)) 0)) }
    ensures scope { OnOk result (scope.new ≡ scope.old) }
{
    let on = value(known, scope, at, on)?;
    let arms_at = At {
        next: on.end.next + 1,
        number: on.end.number + 1,
    };
    let arms = value_arms(known, scope, arms_at, arms)?;
    matched(on, arms)
}

// One arm more, where there is one for the constructor.
#[cycle(value)]
fn value_arm<'a>(
    known: &Known<'_>,
    scope: &mut Scope<'a, u32>,
    mut arms: Arms,
    arm: Option<&'a Arm>,
) -> Result<Arms, AllocError>
    requires locals { arms.end.next + branch_made (source_in known.now.typed.now) (option_map (λ a. branch_of a.now) arm) ≤ 256 }
    requires ended { arms.end.number + branch_ends (source_in known.now.typed.now) (option_map (λ a. branch_of a.now) arm) ≤ 256 }
    ensures arms { IfOk result (λ all. arms_of all ≡ arm_and (source_in known.now.typed.now) scope.old (arms_of arms)
        (option_map (λ a. branch_of a.now) arm.entry)) }
    ensures scope { OnOk result (scope.new ≡ scope.old) }
{
    let Some(arm) = arm else {
        arms.cases.push(missing(known, arms.end.number))?;
        return Ok(arms);
    };
    arms.cases.push(case_of(known, arm, arms.end)?)?;
    let len = scope.len();
    bind_arm(scope, arm, arms.end.next)?;
    let body_at = At {
        next: arms.end.next + bound_of(arm),
        number: arms.end.number,
    };
    let body = value(known, scope, body_at, &arm.body)?;
    scope.leave(len);
    arms.and_body(body)
}

// All arms of a match, which begin here.
#[cycle(value)]
fn value_arms<'a>(
    known: &Known<'_>,
    scope: &mut Scope<'a, u32>,
    at: At,
    arms: &'a [Arm],
) -> Result<Arms, AllocError>
    requires locals { let p = source_in known.now.typed.now in let as' = tree.arms
        (map branch_of arms.now) in at.next + total (arm_made p as') (cons_of p as') ≤ 256 }
    requires ended { let p = source_in known.now.typed.now in let as' = tree.arms
        (map branch_of arms.now) in at.number + total (arm_ends p as') (cons_of p as') ≤ 256 }
    ensures arms { IfOk result (λ all. arms_of all ≡ arms_piece
        (source_in known.now.typed.now) scope.old at.next at.number (tree.arms (map branch_of arms.now))) }
    ensures scope { OnOk result (scope.new ≡ scope.old) }
{
    let order = arms_in_order(known, arms)?;
    let mut all = Arms::new(known.alloc, at);
    'arms: for arm in &order {
        all = value_arm(known, scope, all, *arm)?;
    }
    Ok(all)
}
