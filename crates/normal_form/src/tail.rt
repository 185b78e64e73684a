//! The lines of an expression that ends its function: its last call takes the function's place, and branches don't
//! join.
ghost use Rattle.std.specs.Prelude.{◌≡◌, ◌+◌, ◌<◌, ◌≤◌, map, IfOk, OnOk};
ghost use Rattle.std.specs.Option.{option_map};
ghost use Rattle.camelot_tree.specs.Tree.{expression_of, branch_of, called_of, Let, Match};
ghost use Rattle.camelot_tree.specs.Tree as tree;
ghost use Rattle.normal_form.specs.Normal.{arm_tail_ends, arm_tail_made, cons_of, ends, made, tail_ends, tail_made, total};
ghost use Rattle.normal_form.specs.Counts.{branch_tail_ends, branch_tail_made};
ghost use Rattle.normal_form.specs.Parts.{divided_piece, piece_of, returned_piece, tail_arm_and, tail_of, tail_piece, tails_of, tails_piece};
ghost use Rattle.normal_form.specs.Tables.{source_in};

use crate::known::Known;
use crate::order::arms_in_order;
use crate::part::{At, Part, Tail, TailArms, before, closed, divided, missing, parted};
use crate::scopes::{bind_arm, bound_of, case_of, fun_of};
use crate::value::{value, value_args};
use camelot_names::Scope;
use camelot_tree::{Arm, Call, Expr, Name};
use grail_blocks::Term;
use std::alloc::AllocError;

// A value that the function returns.
fn returned<'a>(
    known: &Known<'_>,
    scope: &mut Scope<'a, u32>,
    at: At,
    expr: &'a Expr,
) -> Result<Tail, AllocError>
    requires locals { at.next + made (source_in known.now.typed.now) (expression_of expr.now) ≤ 256 }
    requires ended { at.number + ends (source_in known.now.typed.now) (expression_of expr.now) < 256 }
    ensures tail { IfOk result (λ last. tail_of last ≡ returned_piece (source_in known.now.typed.now) scope.old at.next at.number (expression_of expr.now)) }
    ensures scope { OnOk result (scope.new ≡ scope.old) }
{
    let part = value(known, scope, at, expr)?;
    closed(part.lines, part.end, Term::Ret(part.local))
}

// A call in tail position.
fn tail_call<'a>(
    known: &Known<'_>,
    scope: &mut Scope<'a, u32>,
    at: At,
    call: &'a Call,
) -> Result<Tail, AllocError>
    requires locals { at.next + tail_made (source_in known.now.typed.now) (called_of call.now) ≤ 256 }
    requires ended { at.number + tail_ends (source_in known.now.typed.now) (called_of call.now) ≤ 256 }
    ensures tail { IfOk result (λ last. tail_of last ≡ tail_piece (source_in known.now.typed.now) scope.old at.next at.number (called_of call.now)) }
    ensures scope { OnOk result (scope.new ≡ scope.old) }
{
    let args = value_args(known, scope, at, &call.args)?;
    let term = Term::Tail {
        func: fun_of(known, &call.fun),
        args: args.locals,
    };
    closed(args.lines, args.end, term)
}

/// What ends a function, by an expression that begins here.
#[cycle(tail)]
pub(crate) fn tail<'a>(
    known: &Known<'_>,
    scope: &mut Scope<'a, u32>,
    at: At,
    expr: &'a Expr,
) -> Result<Tail, AllocError>
    requires locals { at.next + tail_made (source_in known.now.typed.now) (expression_of expr.now) ≤ 256 }
    requires ended { at.number + tail_ends (source_in known.now.typed.now) (expression_of expr.now) ≤ 256 }
    ensures tail { IfOk result (λ last. tail_of last ≡ tail_piece (source_in known.now.typed.now) scope.old at.next at.number (expression_of expr.now)) }
    ensures scope { OnOk result (scope.new ≡ scope.old) }
{
    match expr {
        Expr::Call(call) => tail_call(known, scope, at, call),
        Expr::Let { name, value, body } => tail_let(known, scope, at, name, value, body),
        Expr::If { cond, yes, no, .. } => {
            let cond = value(known, scope, at, cond)?;
            tail_branches(known, scope, cond, yes, no)
        }
        Expr::Match { on, arms, .. } => tail_match(known, scope, at, on, arms),
        Expr::Var(_) | Expr::Num { .. } | Expr::Truth { .. } | Expr::Prim { .. } | Expr::Build(_) =>
            returned(known, scope, at, expr),
    }
}

// A local's value, and what it is for.
#[cycle(tail)]
fn tail_let<'a>(
    known: &Known<'_>,
    scope: &mut Scope<'a, u32>,
    at: At,
    name: &'a Name,
    value_of: &'a Expr,
    body: &'a Expr,
) -> Result<Tail, AllocError>
    requires locals { let p = source_in known.now.typed.now in at.next + (made p (expression_of value_of.now) + tail_made p (expression_of body.now)) ≤ 256 }
    requires ended { let p = source_in known.now.typed.now in at.number + (ends p (expression_of value_of.now) + tail_ends p (expression_of body.now)) ≤ 256 }
    ensures tail { IfOk result (λ last. tail_of last ≡ tail_piece
        (source_in known.now.typed.now) scope.old at.next at.number
        (Let name.now (expression_of value_of.now) (expression_of body.now))) }
    ensures scope { OnOk result (scope.new ≡ scope.old) }
{
    let first = value(known, scope, at, value_of)?;
    let len = scope.len();
    scope.bind(name.word.bytes(), first.local)?;
    let last = tail(known, scope, first.end, body)?;
    scope.leave(len);
    before(first, last)
}

// A conditional behind its condition.
#[cycle(tail)]
fn tail_branches<'a>(
    known: &Known<'_>,
    scope: &mut Scope<'a, u32>,
    cond: Part,
    yes: &'a Expr,
    no: &'a Expr,
) -> Result<Tail, AllocError>
    requires locals { let p = source_in known.now.typed.now in cond.end.next +
        (tail_made p (expression_of yes.now) + tail_made p (expression_of no.now)) ≤ 256 }
    requires ended { let p = source_in known.now.typed.now in cond.end.number +
        (tail_ends p (expression_of yes.now) + tail_ends p (expression_of no.now)) < 256 }
    ensures tail { IfOk result (λ last. tail_of last ≡ divided_piece (source_in known.now.typed.now) scope.old
        (piece_of cond) (expression_of yes.now) (expression_of no.now)) }
    ensures scope { OnOk result (scope.new ≡ scope.old) }
{
    let first_at = At {
        next: cond.end.next,
        number: cond.end.number + 1,
    };
    let first = tail(known, scope, first_at, yes)?;
    let second = tail(known, scope, first.end, no)?;
    divided(cond, first, second)
}

// A scrutinee and its arms.
#[cycle(tail)]
fn tail_match<'a>(
    known: &Known<'_>,
    scope: &mut Scope<'a, u32>,
    at: At,
    on: &'a Expr,
    arms: &'a [Arm],
) -> Result<Tail, AllocError>
    requires locals { at.next + tail_made (source_in known.now.typed.now) (Match (expression_of on.now) (tree.arms (map branch_of arms.now)) 0) ≤ 256 }
    requires ended { at.number + tail_ends (source_in known.now.typed.now) (Match (expression_of on.now) (tree.arms (map branch_of arms.now)) 0) ≤ 256 }
    ensures tail { IfOk result (λ last. tail_of last ≡ tail_piece
        (source_in known.now.typed.now) scope.old at.next at.number
        (Match (expression_of on.now) (tree.arms (map branch_of arms.now)) 0)) }
    ensures scope { OnOk result (scope.new ≡ scope.old) }
{
    let on = value(known, scope, at, on)?;
    let arms_at = At {
        next: on.end.next,
        number: on.end.number + 1,
    };
    let arms = tail_arms(known, scope, arms_at, arms)?;
    parted(on, arms)
}

// One arm more, where there is one for the constructor.
#[cycle(tail)]
fn tail_arm<'a>(
    known: &Known<'_>,
    scope: &mut Scope<'a, u32>,
    mut arms: TailArms,
    arm: Option<&'a Arm>,
) -> Result<TailArms, AllocError>
    requires locals { arms.end.next + branch_tail_made (source_in known.now.typed.now) (option_map (λ a. branch_of a.now) arm) ≤ 256 }
    requires ended { arms.end.number + branch_tail_ends (source_in known.now.typed.now) (option_map (λ a. branch_of a.now) arm) ≤ 256 }
    ensures arms { IfOk result (λ all. tails_of all ≡ tail_arm_and (source_in known.now.typed.now) scope.old
        (tails_of arms) (option_map (λ a. branch_of a.now) arm.entry)) }
    ensures scope { OnOk result (scope.new ≡ scope.old) }
{
    let Some(arm) = arm else {
        arms.cases.push(missing(known, arms.end.number))?;
        return Ok(arms);
    };
    arms.cases.push(case_of(known, arm, arms.end)?)?;
    let len = scope.len();
    bind_arm(scope, arm, arms.end.next)?;
    let body_at = At {
        next: arms.end.next + bound_of(arm),
        number: arms.end.number,
    };
    let body = tail(known, scope, body_at, &arm.body)?;
    scope.leave(len);
    arms.and_body(body)
}

// All arms of a match, which begin here.
#[cycle(tail)]
fn tail_arms<'a>(
    known: &Known<'_>,
    scope: &mut Scope<'a, u32>,
    at: At,
    arms: &'a [Arm],
) -> Result<TailArms, AllocError>
    requires locals { let p = source_in known.now.typed.now in let as' = tree.arms
        (map branch_of arms.now) in at.next + total (arm_tail_made p as') (cons_of p as') ≤ 256 }
    requires ended { let p = source_in known.now.typed.now in let as' = tree.arms
        (map branch_of arms.now) in at.number + total (arm_tail_ends p as') (cons_of p as') ≤ 256 }
    ensures arms { IfOk result (λ all. tails_of all ≡ tails_piece
        (source_in known.now.typed.now) scope.old at.next at.number (tree.arms (map branch_of arms.now))) }
    ensures scope { OnOk result (scope.new ≡ scope.old) }
{
    let order = arms_in_order(known, arms)?;
    let mut all = TailArms::new(known.alloc, at);
    'arms: for arm in &order {
        all = tail_arm(known, scope, all, *arm)?;
    }
    Ok(all)
}
