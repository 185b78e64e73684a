//! Answers lines about runs in cells, so that tables of them are data: `stdin` has the lines, and `stdout` what is to
//! be answered.
//!
//! `code NAME` begins a code, and lines that begin with a blank have its bytes in hexadecimal digits; a line that
//! begins with `--` is a note. Any other line is a command, and its answer stands behind it. The text of the arguments
//! stands between two `|`.
//!
//! - `run CODE FUNCTION LEASE FUEL |ARGUMENTS|`: how the function of this number ends in so many cells, with so much
//!   fuel.
//! - `cells CODE FUNCTION LEASE FUEL |ARGUMENTS|`: the same, and the tag and the words of each cell behind it.
//! - `time CODE FUNCTION LEASE FUEL TIMES |ARGUMENTS|`: how it ends, and then the calls and the nanoseconds of so many
//!   more of the same run, in one range. It is for `bench/machine`.
//!
//! A run is made only where it is proved that the cells are enough: by the lets of the code that build in new cells, or
//! by the evaluator.
mod jobs;
mod running;
mod taken;
mod trees;

use case_lines::Texts;
use jobs::Numbers;
use std::io;

// The numbers of these words.
fn numbers_of(entry: &str, lease: &str, fuel: &str) -> Option<Numbers> {
    Some(Numbers {
        entry: entry.parse::<u32>().ok()?,
        lease: lease.parse::<u32>().ok()?,
        fuel: fuel.parse::<u64>().ok()?,
    })
}

// Prints what is answered to the command of these words, with these arguments.
fn answer(rt: &HostRuntime, codes: &Texts, words: &[&str], text: &[u8]) -> io::Result<()> {
    let (command, name, numbers, times) = match words {
        [command, name, entry, lease, fuel] => (
            *command,
            *name,
            numbers_of(entry, lease, fuel),
            "1",
        ),
        [command, name, entry, lease, fuel, times] => (
            *command,
            *name,
            numbers_of(entry, lease, fuel),
            *times,
        ),
        _ => return print!(rt; " no such command"),
    };
    let (bytes, numbers) = match (codes.find(name), numbers) {
        (Some(bytes), Some(numbers)) => (bytes, numbers),
        _ => return print!(rt; " no such code or numbers"),
    };
    match command {
        "run" => running::answer_run(rt, bytes, numbers, text, false),
        "cells" => running::answer_run(rt, bytes, numbers, text, true),
        "time" => running::answer_time(rt, bytes, numbers, text, times.parse::<u32>().unwrap_or(1)),
        _ => print!(rt; " no such command"),
    }
}

fn answer_line(rt: &HostRuntime, codes: &Texts, line: &str) -> io::Result<()> {
    let parts: Vec<&str> = line.split("|").collect(rt.alloc())?;
    match parts.as_slice() {
        [head, text, ""] => {
            let words: Vec<&str> = head.split_whitespace().collect(rt.alloc())?;
            if head.starts_with("time") {
                print!(rt; "time:")?;
            } else {
                print!(rt; "{line}:")?;
            }
            answer(rt, codes, &words, text.as_bytes())?;
            println!(rt; "")
        }
        _ => println!(rt; "{line}: no such command"),
    }
}

/// Answers the lines of a table.
pub(crate) fn answer_lines(rt: &HostRuntime, lines: &[String]) -> io::Result<()> {
    let alloc = rt.alloc();
    let mut codes = Texts::new(alloc);
    for line in lines {
        let line = line.as_str();
        if let Some(name) = line.strip_prefix("code ") {
            codes.begin(alloc, name)?;
        } else if let Some(digits) = line.strip_prefix(" ") {
            codes.extend_digits(alloc, digits)?;
        } else if !line.starts_with("--") {
            answer_line(rt, &codes, line)?;
        }
    }
    Ok(())
}
