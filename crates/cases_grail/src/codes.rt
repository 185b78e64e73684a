//! Answers lines about Grail codes, so that tables of them are data: `stdin` has the lines, and `stdout` what is to be
//! answered.
//!
//! `code NAME` begins a code, and lines that begin with a blank have its bytes in hexadecimal digits; a line that
//! begins with `--` is a note. Any other line is a command on a code, and its answer stands behind it. Each word as
//! `3=67` puts these bytes, any number of them, in the place of one byte, counted from 0.
//!
//! - `decode NAME EDITS`: the code's types and functions, as Rust's `Debug` prints them, or its fault. A code is
//!   written again too.
//! - `fronts NAME`: how many of its fronts are short. `values NAME`: at how many values of each byte it is still code.
//! - `find NAME FUNCTION`: the function's number.
//! - `types NAME`: each type with the constructors that it reaches.
//! - `check NAME EDITS`: the first fault of the code, or that it is well formed.
//! - `run NAME NUMBER FUEL LIMIT ARGUMENTS`: how the function of this number ends with so much fuel and where so many
//!   calls may wait. An argument is a number, or a list of numbers as `[1,2]`, made of the constructors 1 and 0.
mod running;
mod spelling;
mod typing;

use case_lines::{Texts, edited};
use std::io;

// Prints what is answered to a command on these bytes.
fn answer(rt: &HostRuntime, command: &str, bytes: &[u8], words: &[&str]) -> io::Result<()> {
    match command {
        "decode" => spelling::answer_decode(rt, &edited(rt.alloc(), bytes, words)?),
        "fronts" => spelling::answer_fronts(rt, bytes),
        "values" => spelling::answer_values(rt, bytes),
        "find" => spelling::answer_find(rt, bytes, words),
        "types" => typing::answer_types(rt, bytes),
        "check" => typing::answer_check(rt, &edited(rt.alloc(), bytes, words)?),
        "run" => running::answer_run(rt, bytes, words),
        _ => println!(rt; " no such command"),
    }
}

fn answer_line(rt: &HostRuntime, codes: &Texts, line: &str) -> io::Result<()> {
    let words: Vec<&str> = line.split_whitespace().collect(rt.alloc())?;
    print!(rt; "{line}:")?;
    match words.as_slice() {
        [command, name, words @ ..] => match codes.find(name) {
            Some(bytes) => answer(rt, command, bytes, words),
            None => println!(rt; " no such code"),
        },
        _ => println!(rt; " no such command"),
    }
}

/// Answers the lines of a table.
pub(crate) fn answer_lines(rt: &HostRuntime, lines: &[String]) -> io::Result<()> {
    let alloc = rt.alloc();
    let mut codes = Texts::new(alloc);
    for line in lines {
        let line = line.as_str();
        if let Some(name) = line.strip_prefix("code ") {
            codes.begin(alloc, name)?;
        } else if let Some(digits) = line.strip_prefix(" ") {
            codes.extend_digits(alloc, digits)?;
        } else if !line.starts_with("--") {
            answer_line(rt, &codes, line)?;
        }
    }
    Ok(())
}
