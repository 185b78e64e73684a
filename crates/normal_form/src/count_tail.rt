//! How many locals and blocks an expression needs that ends a function.
ghost use Rattle.std.specs.Prelude.{◌≡◌, map, IfOk};
ghost use Rattle.std.specs.Option.{option_map};
ghost use Rattle.camelot_tree.specs.Tree.{expression_of, branch_of, Let, If, Match};
ghost use Rattle.camelot_tree.specs.Tree as tree;
ghost use Rattle.normal_form.specs.Tables.{source_in};
ghost use Rattle.normal_form.specs.Counts.{arms_tail_counts, branch_tail_counts, tail_counts};

use crate::count::{count, count_all, count_bound};
use crate::counts::Counts;
use crate::known::Known;
use crate::order::arms_in_order;
use camelot_tree::{Arm, Expr};
use std::alloc::AllocError;

/// The counts of an expression that ends the function.
#[cycle(count_tail)]
pub(crate) fn count_tail(known: &Known<'_>, expr: &Expr) -> Result<Counts, AllocError>
    ensures { IfOk result (λ counts. counts ≡ tail_counts (source_in known.now.typed.now) (expression_of expr.now)) }
{
    match expr {
        Expr::Call(call) => Ok(count_all(known, &call.args)?.and(Counts::new(0, 1))),
        Expr::Let { value, body, .. } => {
            let first = count(known, value)?;
            let second = count_tail(known, body)?;
            Ok(first.and(second))
        }
        Expr::If { cond, yes, no, .. } => {
            let on = count(known, cond)?;
            let first = count_tail(known, yes)?;
            let second = count_tail(known, no)?;
            Ok(on.and(first.and(second)).and(Counts::new(0, 1)))
        }
        Expr::Match { on, arms, .. } => count_tail_match(known, on, arms),
        Expr::Var(_) | Expr::Num { .. } | Expr::Truth { .. } | Expr::Prim { .. } | Expr::Build(_) =>
            Ok(count(known, expr)?.and(Counts::new(0, 1))),
    }
}

// The counts of a match.
#[cycle(count_tail)]
fn count_tail_match(known: &Known<'_>, on: &Expr, arms: &[Arm]) -> Result<Counts, AllocError>
    ensures { IfOk result (λ counts. counts ≡ tail_counts (source_in known.now.typed.now)
        (Match (expression_of on.now) (tree.arms (map branch_of arms.now)) 0)) }
{
    let first = count(known, on)?;
    let second = count_tail_arms(known, arms)?;
    Ok(first.and(second).and(Counts::new(0, 1)))
}

// The counts of an arm, where there is one.
#[cycle(count_tail)]
fn count_tail_arm(known: &Known<'_>, arm: Option<&Arm>) -> Result<Counts, AllocError>
    ensures { IfOk result (λ counts. counts ≡ branch_tail_counts (source_in known.now.typed.now) (option_map (λ a. branch_of a.now) arm.entry)) }
{
    match arm {
        None => Ok(Counts::new(0, 0)),
        Some(arm) => Ok(count_bound(arm).and(count_tail(known, &arm.body)?)),
    }
}

// The counts of all arms.
#[cycle(count_tail)]
fn count_tail_arms(known: &Known<'_>, arms: &[Arm]) -> Result<Counts, AllocError>
    ensures { IfOk result (λ counts. counts ≡ arms_tail_counts (source_in known.now.typed.now) (tree.arms (map branch_of arms.now))) }
{
    let order = arms_in_order(known, arms)?;
    let mut counts = Counts::new(0, 0);
    'arms: for arm in &order {
        counts = counts.and(count_tail_arm(known, *arm)?);
    }
    Ok(counts)
}
