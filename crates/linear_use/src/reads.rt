//! What a call reads, behind all of its arguments.
ghost use Rattle.std.specs.Prelude.{◌≡◌, [], map, OnOk};
ghost use Rattle.std.specs.Option.{option_map, option_or};
ghost use Rattle.camelot_tree.specs.Tree.{expression_of, expressions};
ghost use Rattle.linear_use.specs.declared.fault.UseFault.TheVariants.{Twice};
ghost use Rattle.linear_use.specs.Uses.{lent_params};
ghost use Rattle.linear_use.specs.Flow.{Nothing, read_flow, argument_flow};
ghost use Rattle.camelot_values.specs.Names.{find};
ghost use Rattle.linear_use.specs.Walk.{first_of, reads_first, is_read};

use crate::known::Known;
use crate::marks::Marks;
use crate::state::State;
use camelot_tree::{Expr, Name};
use std::alloc::AllocError;

/// Whether an argument is read, where its parameter is read or not.
pub(crate) fn is_read(read: bool, arg: &Expr) -> bool
    ensures { result ≡ is_read read (expression_of arg.now) }
{
    match arg {
        Expr::Var(_) => read,
        _ => false,
    }
}

// A variable that is spent.
fn spent_name<'b>(known: &Known<'_, '_>, state: &State<'_>, name: &'b Name) -> Option<&'b Name>
    ensures { option_map (λ n. Twice n.now.word n.now.line) result
        ≡ first_of [] state.now.spent (read_flow known.now.typed.now.types (find state.now.scope name.now.word) name.now) }
{
    let Some(variable) = state.scope.find(name.word.bytes()) else {
        return None;
    };
    if variable.lent {
        return None;
    }
    if !known.typed.types.is_heap(variable.kind) {
        return None;
    }
    if state.spent.contains(variable.number) {
        return Some(name);
    }
    None
}

// A reading of a variable that is spent.
fn spent_read<'b>(
    known: &Known<'_, '_>,
    state: &State<'_>,
    read: bool,
    arg: &'b Expr,
) -> Option<&'b Name>
    ensures { option_map (λ n. Twice n.now.word n.now.line) result
        ≡ first_of [] state.now.spent (argument_flow known.now.typed.now.types state.now.scope read (expression_of arg.now) Nothing) }
{
    match arg {
        Expr::Var(name) => {
            if !read {
                return None;
            }
            spent_name(known, state, name)
        }
        _ => None,
    }
}

// The first of these arguments that reads a variable that is spent, by its name.
fn find_read<'b>(
    known: &Known<'_, '_>,
    state: &State<'_>,
    marks: Marks<'_>,
    args: &'b [Expr],
    clear: usize,
) -> Option<&'b Name>
    ensures { option_map (λ n. Twice n.now.word n.now.line) result
        ≡ reads_first state.now.spent known.now.typed.now.types state.now.scope
        (lent_params known.now.typed.now.types marks.entry.params.now marks.entry.kinds.now) (expressions (map expression_of args.now)) clear }
{
    let mut left = marks;
    let mut count = clear;
    'all: for arg in args {
        if count == 0 {
            return None;
        }
        count -= 1;
        let read = left.first(&known.typed.types);
        if let Some(name) = spent_read(known, state, read, arg) {
            return Some(name);
        }
        left = left.behind(&known.typed.types);
    }
    None
}

/// The readings of a call behind its arguments; the first fault among them stands before all that was found.
pub(crate) fn check_reads(
    known: &Known<'_, '_>,
    state: &mut State<'_>,
    marks: Marks<'_>,
    args: &[Expr],
    clear: usize,
) -> Result<(), AllocError>
    ensures { OnOk result (state.new ≡ record state.old {
      fault = option_or
          (reads_first state.old.spent known.now.typed.now.types state.old.scope
          (lent_params known.now.typed.now.types marks.entry.params.now marks.entry.kinds.now) (expressions (map expression_of args.now)) clear)
          state.old.fault;
    }) }
{
    let Some(name) = find_read(known, state, marks, args, clear) else {
        return Ok(());
    };
    state.twice_first(known.alloc, name)?;
    Ok(())
}
