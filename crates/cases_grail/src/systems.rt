//! Answers systems of inequalities, so that tables of them are data: `stdin` has the systems, and `stdout` what is to
//! be answered.
//!
//! `system NAME COSTS` begins a system of as many unknowns as there are costs, `row LEAST UNKNOWN:FACTOR ..` is a row
//! of it, and `each COUNT` adds so many unknowns of cost 1, each with a row that makes it 1 at least. A line that
//! begins with `--` is a note.
//!
//! The answer is the name and `least VALUES over UNIT, prices PRICES over UNIT`, `nothing at VARIABLE`, `wide at PIVOT`
//! or `spent`, and the pivots; or `not a proper system`.
mod cases;

use cases::Case;
use dual_simplex::{Solved, solve, solve_counted};
use std::alloc::{AllocError, Global};
use std::fmt::Write;
use std::io;

// How a run ends, as text.
fn text_of(alloc: Global, solved: &Solved) -> Result<String, AllocError> {
    match solved {
        Solved::Least {
            unit,
            values,
            price_unit,
            prices,
        } => {
            let mut text = String::from_str(alloc, "least")?;
            push_numbers(&mut text, values)?;
            write!(text, " over {unit}, prices")?;
            push_numbers(&mut text, prices)?;
            write!(text, " over {price_unit}")?;
            Ok(text)
        }
        Solved::Nothing { variable } => format!(in alloc; "nothing at {variable}"),
        Solved::Wide { pivot } => format!(in alloc; "wide at {pivot}"),
        Solved::Spent => String::from_str(alloc, "spent"),
    }
}

fn push_numbers(text: &mut String, numbers: &[u64]) -> Result<(), AllocError> {
    for number in numbers {
        write!(text, " {number}")?;
    }
    Ok(())
}

// Prints how the run of a system ends by both calls, and its pivots.
fn answer(rt: &HostRuntime, case: &Case) -> io::Result<()> {
    let system = &case.system;
    if !system.is_proper() {
        return println!(rt; "{}: not a proper system", case.name);
    }
    let solved = text_of(rt.alloc(), &solve(rt.alloc(), system)?)?;
    let run = solve_counted(rt.alloc(), system)?;
    let counted = text_of(rt.alloc(), &run.solved)?;
    println!(rt; "{}: {solved}; pivots {}", case.name, run.pivots)?;
    if counted.as_str() != solved.as_str() {
        println!(rt; "  but counted: {counted}")?;
    }
    Ok(())
}

/// Answers the lines of a table.
pub(crate) fn answer_lines(rt: &HostRuntime, lines: &[String]) -> io::Result<()> {
    let alloc = rt.alloc();
    let mut last: Option<Case> = None;
    for line in lines {
        let words: Vec<&str> = line.as_str().split_whitespace().collect(alloc)?;
        match (words.as_slice(), &mut last) {
            (["system", name, costs @ ..], _) => {
                if let Some(case) = &last {
                    answer(rt, case)?;
                }
                last = Some(Case::new(alloc, name, costs)?);
            }
            (["row", least, terms @ ..], Some(case)) => case.add_row(alloc, least, terms)?,
            (["each", count], Some(case)) => case.add_unknowns(alloc, count)?,
            _ => {}
        }
    }
    match &last {
        Some(case) => answer(rt, case),
        None => Ok(()),
    }
}
