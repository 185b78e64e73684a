//! The kinds of the locals that an expression makes that ends its function.
ghost use Rattle.std.specs.Prelude.{◌≡◌, ◌++◌, map, IfOk, OnOk};
ghost use Rattle.std.specs.Option.{option_map};
ghost use Rattle.camelot_tree.specs.Tree.{expression_of, branch_of, Let, Match};
ghost use Rattle.camelot_tree.specs.Tree as tree;
ghost use Rattle.normal_form.specs.Normal.{all_of, arm_tail_kinds, cons_of, tail_kinds};
ghost use Rattle.normal_form.specs.KindParts.{branch_tail_kinds};
ghost use Rattle.normal_form.specs.Tables.{signatures_in, source_in};

use crate::kinds::{args_kinds, kinds};
use crate::known::Known;
use crate::known_kinds::{bind_arm_kinds, bound_kinds};
use crate::order::arms_in_order;
use camelot_names::Scope;
use camelot_tree::{Arm, Expr, Name};
use camelot_values::Kind;
use std::alloc::AllocError;

/// The kinds of the locals of an expression that ends the function.
#[cycle(tail_kinds)]
pub(crate) fn tail_kinds<'a>(
    known: &Known<'_>,
    scope: &mut Scope<'a, Kind>,
    expr: &'a Expr,
) -> Result<Vec<Kind>, AllocError>
    ensures kinds { IfOk result (λ all. all.items ≡ tail_kinds (source_in known.now.typed.now)
        (signatures_in known.now.typed.now) scope.old (expression_of expr.now)) }
    ensures scope { OnOk result (scope.new ≡ scope.old) }
{
    match expr {
        Expr::Call(call) => args_kinds(known, scope, &call.args),
        Expr::Let { name, value, body } => tail_let_kinds(known, scope, name, value, body),
        Expr::If { cond, yes, no, .. } => {
            let mut all = kinds(known, scope, cond)?.kinds;
            let mut first = tail_kinds(known, scope, yes)?;
            let mut second = tail_kinds(known, scope, no)?;
            first.append(&mut second)?;
            all.append(&mut first)?;
            Ok(all)
        }
        Expr::Match { on, arms, .. } => tail_match_kinds(known, scope, on, arms),
        Expr::Var(_) | Expr::Num { .. } | Expr::Truth { .. } | Expr::Prim { .. } | Expr::Build(_) =>
            Ok(kinds(known, scope, expr)?.kinds),
    }
}

// A local's value, and what it is for.
#[cycle(tail_kinds)]
fn tail_let_kinds<'a>(
    known: &Known<'_>,
    scope: &mut Scope<'a, Kind>,
    name: &'a Name,
    value: &'a Expr,
    body: &'a Expr,
) -> Result<Vec<Kind>, AllocError>
    ensures kinds { IfOk result (λ all. all.items ≡ tail_kinds (source_in known.now.typed.now)
        (signatures_in known.now.typed.now) scope.old
        (Let name.now (expression_of value.now) (expression_of body.now))) }
    ensures scope { OnOk result (scope.new ≡ scope.old) }
{
    let mut first = kinds(known, scope, value)?;
    let len = scope.len();
    scope.bind(name.word.bytes(), first.kind)?;
    let mut last = tail_kinds(known, scope, body)?;
    scope.leave(len);
    first.kinds.append(&mut last)?;
    Ok(first.kinds)
}

// A scrutinee and its arms.
#[cycle(tail_kinds)]
fn tail_match_kinds<'a>(
    known: &Known<'_>,
    scope: &mut Scope<'a, Kind>,
    on: &'a Expr,
    arms: &'a [Arm],
) -> Result<Vec<Kind>, AllocError>
    ensures kinds { IfOk result (λ all. all.items ≡ tail_kinds (source_in known.now.typed.now)
        (signatures_in known.now.typed.now) scope.old
        (Match (expression_of on.now) (tree.arms (map branch_of arms.now)) 0)) }
    ensures scope { OnOk result (scope.new ≡ scope.old) }
{
    let mut all = kinds(known, scope, on)?.kinds;
    let mut branches = all_tail_arm_kinds(known, scope, arms)?;
    all.append(&mut branches)?;
    Ok(all)
}

// An arm, where there is one for the constructor.
#[cycle(tail_kinds)]
fn tail_arm_kinds<'a>(
    known: &Known<'_>,
    scope: &mut Scope<'a, Kind>,
    arm: Option<&'a Arm>,
) -> Result<Vec<Kind>, AllocError>
    ensures kinds { IfOk result (λ all. all.items ≡ branch_tail_kinds (source_in known.now.typed.now)
        (signatures_in known.now.typed.now) scope.old (option_map (λ a. branch_of a.now) arm.entry)) }
    ensures scope { OnOk result (scope.new ≡ scope.old) }
{
    let Some(arm) = arm else {
        return Ok(Vec::new(known.alloc));
    };
    let mut all = bound_kinds(known, arm)?;
    let len = scope.len();
    bind_arm_kinds(known, scope, arm)?;
    let mut body = tail_kinds(known, scope, &arm.body)?;
    scope.leave(len);
    all.append(&mut body)?;
    Ok(all)
}

// All arms.
#[cycle(tail_kinds)]
fn all_tail_arm_kinds<'a>(
    known: &Known<'_>,
    scope: &mut Scope<'a, Kind>,
    arms: &'a [Arm],
) -> Result<Vec<Kind>, AllocError>
    ensures kinds { IfOk result (λ all. let p = source_in known.now.typed.now in let as' = tree.arms
        (map branch_of arms.now) in all.items
        ≡ all_of (arm_tail_kinds p (signatures_in known.now.typed.now) scope.old as') (cons_of p as')) }
    ensures scope { OnOk result (scope.new ≡ scope.old) }
{
    let order = arms_in_order(known, arms)?;
    let mut all = Vec::new(known.alloc);
    'arms: for arm in &order {
        let mut next = tail_arm_kinds(known, scope, *arm)?;
        all.append(&mut next)?;
    }
    Ok(all)
}
