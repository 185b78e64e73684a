//! Answers about runs of codes.

use camelot_values::Types;
use grail_code::decode;
use grail_evaluator::{Outcome, Tree, run};
use std::alloc::{AllocError, Global};
use std::fmt::Write;
use std::io;
use std::io::ErrorKind;

// The value of a word: a number, or a list of numbers as `[1,2]`.
fn value_of(alloc: Global, word: &str) -> io::Result<Tree> {
    match word.strip_prefix("[") {
        Some(rest) => list_of(alloc, rest.trim_end_matches("]")),
        None => number_of(word),
    }
}

fn number_of(word: &str) -> io::Result<Tree> {
    match word.parse::<i32>() {
        Ok(number) => Ok(Tree::Int(number)),
        Err(_) => Err(ErrorKind::InvalidInput.into()),
    }
}

// The list of the numbers of a text, with commas between them.
fn list_of(alloc: Global, text: &str) -> io::Result<Tree> {
    let mut rest = Tree::Con {
        con: 0,
        parts: Vec::new(alloc),
    };
    for word in text.rsplit(",") {
        if !word.is_empty() {
            let parts = vec![in alloc; number_of(word)?, rest]?;
            rest = Tree::Con { con: 1, parts };
        }
    }
    Ok(rest)
}

fn values_of(alloc: Global, words: &[&str]) -> io::Result<Vec<Tree>> {
    let mut values = Vec::new(alloc);
    for word in words {
        values.push(value_of(alloc, word)?)?;
    }
    Ok(values)
}

// A value as it is written in Camelot.
#[cycle(show)]
fn show(out: &mut String, types: &Types, value: &Tree) -> Result<(), AllocError> {
    match value {
        Tree::Int(number) => write!(out, "{number}"),
        Tree::Flag(truth) => write!(out, "{truth}"),
        Tree::Dia => out.push_str("<>"),
        Tree::Con { con, parts } => {
            match types.con(*con) {
                Some(con) => write!(out, "{}", con.name)?,
                None => out.push_str("?")?,
            }
            show_parts(out, types, parts)
        }
    }
}

#[cycle(show)]
fn show_parts(out: &mut String, types: &Types, parts: &[Tree]) -> Result<(), AllocError> {
    match parts {
        [] => Ok(()),
        [first, rest @ ..] => {
            out.push_str("(")?;
            show(out, types, first)?;
            for part in rest {
                out.push_str(", ")?;
                show(out, types, part)?;
            }
            out.push_str(")")
        }
    }
}

fn print_outcome(rt: &HostRuntime, types: &Types, outcome: &Outcome) -> io::Result<()> {
    match outcome {
        Outcome::Done {
            value,
            calls,
            peak,
            low,
        } => {
            let mut shown = String::new(rt.alloc());
            show(&mut shown, types, value)?;
            let net = i128::from(*peak) - i128::from(*low);
            println!(rt; " done {shown} calls {calls} peak {peak} net {net}")
        }
        Outcome::Fuel { calls, peak } => println!(rt; " fuel calls {calls} peak {peak}"),
        Outcome::Deep { peak } => println!(rt; " deep peak {peak}"),
        Outcome::Trap { peak } => println!(rt; " trap peak {peak}"),
        Outcome::Stuck => println!(rt; " stuck"),
    }
}

// The numbers of a run: of its function, its fuel, and how many calls may wait.
fn numbers_of(func: &str, fuel: &str, limit: &str) -> Option<(u32, u64, u64)> {
    let func = func.parse::<u32>().ok()?;
    let fuel = fuel.parse::<u64>().ok()?;
    let limit = limit.parse::<u64>().ok()?;
    Some((func, fuel, limit))
}

pub(crate) fn answer_run(rt: &HostRuntime, bytes: &[u8], words: &[&str]) -> io::Result<()> {
    let code = match decode(rt.alloc(), bytes) {
        Ok(code) => code,
        Err(fault) => return println!(rt; " {fault}"),
    };
    let (numbers, args) = match words {
        [func, fuel, limit, args @ ..] => (numbers_of(func, fuel, limit), args),
        _ => (None, words),
    };
    let (func, fuel, limit) = match numbers {
        Some(numbers) => numbers,
        None => return println!(rt; " no such run"),
    };
    match run(
        rt.alloc(),
        &code,
        limit,
        func,
        fuel,
        values_of(rt.alloc(), args)?,
    ) {
        Ok(outcome) => print_outcome(rt, &code.types, &outcome),
        Err(error) => println!(rt; " {error}"),
    }
}
