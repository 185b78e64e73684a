//! The walk through an expression.
ghost use Rattle.std.specs.Prelude.{◌≡◌, ◌++◌, map, length, IfOk};
ghost use Rattle.linear_use.specs.Uses.{lent_params};
ghost use Rattle.camelot_tree.specs.Tree.{expression_of, branch_of, expressions, Let, Match};
ghost use Rattle.camelot_tree.specs.Tree as tree;
ghost use Rattle.camelot_tree.specs.Spine.{IsLeaf};
ghost use Rattle.linear_use.specs.Flow.{kinds_in, next_of, flow, looks_on, Either};
ghost use Rattle.linear_use.specs.Walk.{globals_in, loans_in, AreAt, Walks, WalksTerm, WalksParts, WalksRest, WalksCall, WalksOn, WalksArm, WalksArms, ArgumentWalked, AllWalked, kinds_at, parts_kinds_at, rest_kinds, all_kinds_at, arm_kinds_at, arms_kinds_at};

use crate::known::Known;
use crate::marks::{Marks, marks_of};
use crate::parts::{bind_arm, check_cell, kind_behind, look, looks_on, use_name, use_place};
use crate::reads::{check_reads, is_read};
use crate::spent::Held;
use crate::state::State;
use camelot_tree::{Arm, Expr, Name, Rooms};
use std::alloc::AllocError;

/// Walks through an expression, along its left end.
#[cycle(walk)]
pub(crate) fn walk<'a>(
    known: &Known<'a, '_>,
    state: &mut State<'a>,
    rooms: &mut Rooms<'a>,
    expr: &'a Expr,
) -> Result<(), AllocError>
    requires { AreAt known.now.exprs.now state.old.position (kinds_at (globals_in known.now.typed.now) state.old (expression_of expr.now)) }
    ensures { WalksTerm (loans_in known.now.typed.now) (globals_in known.now.typed.now) (expression_of expr.now) state.old result state.new }
{
    let spine = rooms.left_spine(expr)?;
    let mut parents = spine.parents;
    walk_parts(known, state, rooms, spine.leaf)?;
    state.finish(known.exprs);
    'up: while let Some(parent) = parents.pop() {
        walk_rest(known, state, rooms, parent)?;
    }
    rooms.keep(parents);
    Ok(())
}

// The parts of an operator or a conditional behind its first part.
#[cycle(walk)]
fn walk_rest<'a>(
    known: &Known<'a, '_>,
    state: &mut State<'a>,
    rooms: &mut Rooms<'a>,
    parent: &'a Expr,
) -> Result<(), AllocError>
    requires { AreAt known.now.exprs.now state.old.position
        (rest_kinds (globals_in known.now.typed.now) (kinds_in state.old.scope) (expression_of parent.now)) }
    ensures { WalksRest (loans_in known.now.typed.now) (globals_in known.now.typed.now) (expression_of parent.now) state.old result state.new }
{
    match parent {
        Expr::Prim { right, .. } => walk(known, state, rooms, right)?,
        Expr::If { yes, no, .. } => walk_branches(known, state, rooms, yes, no)?,
        _ => return Ok(()),
    }
    state.finish(known.exprs);
    Ok(())
}

// Two branches, each of which goes on from what was spent before both.
#[cycle(walk)]
#[tactic(auto, using(crate::proofs::Walking::at_front, crate::proofs::Bodies::branches_at, crate::proofs::Bodies::branches_walked))]
fn walk_branches<'a>(
    known: &Known<'a, '_>,
    state: &mut State<'a>,
    rooms: &mut Rooms<'a>,
    yes: &'a Expr,
    no: &'a Expr,
) -> Result<(), AllocError>
    requires { let g = globals_in known.now.typed.now in AreAt known.now.exprs.now state.old.position
        (kinds_at g state.old (expression_of yes.now) ++ kinds_at g state.old (expression_of no.now)) }
    ensures { let g = globals_in known.now.typed.now in
        let l = loans_in known.now.typed.now in
        let first = next_of g.types state.old.next (expression_of yes.now) in
        Walks (Either (flow l g state.old.next state.old.scope (expression_of yes.now)) (flow l g first state.old.scope (expression_of no.now)))
        (next_of g.types first (expression_of no.now))
        (length (kinds_at g state.old (expression_of yes.now) ++ kinds_at g state.old
        (expression_of no.now))) state.old result state.new }
{
    let start = state.spent.len();
    let mut held = Held::new(known.alloc);
    walk(known, state, rooms, yes)?;
    state.spent.hold(start, &mut held)?;
    walk(known, state, rooms, no)?;
    state.spent.put_back(held)?;
    Ok(())
}

// The parts of the innermost part of a left end.
#[cycle(walk)]
fn walk_parts<'a>(
    known: &Known<'a, '_>,
    state: &mut State<'a>,
    rooms: &mut Rooms<'a>,
    expr: &'a Expr,
) -> Result<(), AllocError>
    requires leaf { IsLeaf (expression_of expr.now) }
    requires kinds { AreAt known.now.exprs.now state.old.position (parts_kinds_at (globals_in known.now.typed.now) state.old (expression_of expr.now)) }
    ensures { WalksParts (loans_in known.now.typed.now) (globals_in known.now.typed.now) (expression_of expr.now) state.old result state.new }
{
    match expr {
        Expr::Num { .. } | Expr::Truth { .. } => Ok(()),
        Expr::Var(name) => use_name(known, state, name),
        Expr::Let { name, value, body } => walk_let(known, state, rooms, name, value, body),
        Expr::Match { on, arms, .. } => walk_match(known, state, rooms, on, arms),
        Expr::Build(build) => {
            walk_args(known, state, rooms, Marks::new(), &build.args)?;
            use_place(known, state, &build.place)
        }
        Expr::Call(call) => walk_call(known, state, rooms, &call.fun, &call.args),
        Expr::Prim { .. } | Expr::If { .. } => unreachable!(),
    }
}

// A scrutinee and its arms.
#[cycle(walk)]
#[tactic(auto, using(crate::proofs::Walking::at_front, crate::proofs::Trees::match_arms_at, crate::proofs::Trees::match_walks))]
fn walk_match<'a>(
    known: &Known<'a, '_>,
    state: &mut State<'a>,
    rooms: &mut Rooms<'a>,
    on: &'a Expr,
    arms: &'a [Arm],
) -> Result<(), AllocError>
    requires { AreAt known.now.exprs.now state.old.position
        (parts_kinds_at (globals_in known.now.typed.now) state.old
        (Match (expression_of on.now) (tree.arms (map branch_of arms.now)) 0)) }
    ensures { WalksParts (loans_in known.now.typed.now) (globals_in known.now.typed.now)
        (Match (expression_of on.now) (tree.arms (map branch_of arms.now)) 0) state.old result state.new }
{
    let lent = looks_on(state, on);
    walk_on(known, state, rooms, lent, on, arms)?;
    walk_arms(known, state, rooms, lent, arms)
}

// A scrutinee, which a match on a variable that is lent only looks at.
#[cycle(walk)]
fn walk_on<'a>(
    known: &Known<'a, '_>,
    state: &mut State<'a>,
    rooms: &mut Rooms<'a>,
    lent: bool,
    on: &'a Expr,
    arms: &'a [Arm],
) -> Result<(), AllocError>
    requires lent { lent ≡ looks_on state.old.scope (expression_of on.now) }
    requires kinds { AreAt known.now.exprs.now state.old.position (kinds_at (globals_in known.now.typed.now) state.old (expression_of on.now)) }
    ensures { WalksOn (loans_in known.now.typed.now) (globals_in known.now.typed.now) lent (expression_of on.now)
        (tree.arms (map branch_of arms.now)) state.old result state.new }
{
    if lent {
        return look(known, state, on, arms);
    }
    walk(known, state, rooms, on)
}

// A local's value, and what it is for.
#[cycle(walk)]
fn walk_let<'a>(
    known: &Known<'a, '_>,
    state: &mut State<'a>,
    rooms: &mut Rooms<'a>,
    name: &'a Name,
    value: &'a Expr,
    body: &'a Expr,
) -> Result<(), AllocError>
    requires { AreAt known.now.exprs.now state.old.position
        (parts_kinds_at (globals_in known.now.typed.now) state.old
        (Let name.now (expression_of value.now) (expression_of body.now))) }
    ensures { WalksParts (loans_in known.now.typed.now) (globals_in known.now.typed.now)
        (Let name.now (expression_of value.now) (expression_of body.now)) state.old result state.new }
{
    walk(known, state, rooms, value)?;
    let kind = kind_behind(known.exprs, state.position);
    let len = state.scope.len();
    state.bind(name, kind, false)?;
    walk(known, state, rooms, body)?;
    state.scope.leave(len);
    Ok(())
}

// A call's arguments, and behind them what it reads.
#[cycle(walk)]
fn walk_call<'a>(
    known: &Known<'a, '_>,
    state: &mut State<'a>,
    rooms: &mut Rooms<'a>,
    fun: &'a Name,
    args: &'a [Expr],
) -> Result<(), AllocError>
    requires { AreAt known.now.exprs.now state.old.position
        (all_kinds_at (globals_in known.now.typed.now) state.old (expressions (map expression_of args.now))) }
    ensures { WalksCall (loans_in known.now.typed.now) (globals_in known.now.typed.now) fun.now.word
        (expressions (map expression_of args.now)) state.old result state.new }
{
    let marks = marks_of(known, fun.word.bytes());
    let clear = walk_args(known, state, rooms, marks, args)?;
    check_reads(known, state, marks, args, clear)
}

// Arguments, one after the other. Those that are read are passed; it answers how many there are up to the last one of
// these that no fault stands before.
#[cycle(walk)]
fn walk_args<'a>(
    known: &Known<'a, '_>,
    state: &mut State<'a>,
    rooms: &mut Rooms<'a>,
    marks: Marks<'a>,
    args: &'a [Expr],
) -> Result<usize, AllocError>
    requires { AreAt known.now.exprs.now state.old.position
        (all_kinds_at (globals_in known.now.typed.now) state.old (expressions (map expression_of args.now))) }
    ensures { IfOk result (AllWalked (loans_in known.now.typed.now) (globals_in known.now.typed.now)
        (lent_params known.now.typed.now.types marks.entry.params.now marks.entry.kinds.now)
        (expressions (map expression_of args.now)) state.old state.new) }
{
    let mut left = marks;
    let mut clear = 0;
    let mut index = 0;
    let _count = args.len();
    'all: for arg in args {
        let read = left.first(&known.typed.types);
        index += 1;
        clear = walk_arg(known, state, rooms, read, arg, clear, index)?;
        left = left.behind(&known.typed.types);
    }
    Ok(clear)
}

// One argument, which is passed where it is read.
#[cycle(walk)]
fn walk_arg<'a>(
    known: &Known<'a, '_>,
    state: &mut State<'a>,
    rooms: &mut Rooms<'a>,
    read: bool,
    arg: &'a Expr,
    clear: usize,
    index: usize,
) -> Result<usize, AllocError>
    requires { AreAt known.now.exprs.now state.old.position (kinds_at (globals_in known.now.typed.now) state.old (expression_of arg.now)) }
    ensures { IfOk result (ArgumentWalked (loans_in known.now.typed.now) (globals_in known.now.typed.now) read (expression_of arg.now)
        clear index state.old state.new) }
{
    if !is_read(read, arg) {
        walk(known, state, rooms, arg)?;
        return Ok(clear);
    }
    state.finish(known.exprs);
    if state.fault.is_some() {
        return Ok(clear);
    }
    Ok(index)
}

// An arm, whose variables are bound in it alone.
#[cycle(walk)]
fn walk_arm<'a>(
    known: &Known<'a, '_>,
    state: &mut State<'a>,
    rooms: &mut Rooms<'a>,
    lent: bool,
    arm: &'a Arm,
) -> Result<(), AllocError>
    requires { AreAt known.now.exprs.now state.old.position (arm_kinds_at (globals_in known.now.typed.now) state.old (branch_of arm.now)) }
    ensures { WalksArm (loans_in known.now.typed.now) (globals_in known.now.typed.now) lent (branch_of arm.now) state.old result state.new }
{
    check_cell(known, state, lent, &arm.con, &arm.cell)?;
    let len = state.scope.len();
    bind_arm(known, state, lent, arm)?;
    walk(known, state, rooms, &arm.body)?;
    state.scope.leave(len);
    Ok(())
}

// Arms, each of which goes on from what was spent before all of them.
#[cycle(walk)]
fn walk_arms<'a>(
    known: &Known<'a, '_>,
    state: &mut State<'a>,
    rooms: &mut Rooms<'a>,
    lent: bool,
    arms: &'a [Arm],
) -> Result<(), AllocError>
    requires { AreAt known.now.exprs.now state.old.position (arms_kinds_at (globals_in known.now.typed.now) state.old (tree.arms (map branch_of arms.now))) }
    ensures { WalksArms (loans_in known.now.typed.now) (globals_in known.now.typed.now) lent (tree.arms (map branch_of arms.now)) state.old result state.new }
{
    let start = state.spent.len();
    let mut held = Held::new(known.alloc);
    'arms: for arm in arms {
        walk_arm(known, state, rooms, lent, arm)?;
        state.spent.hold(start, &mut held)?;
    }
    state.spent.put_back(held)?;
    Ok(())
}
