//! Answers lines about places of code, so that tables of them are data: `stdin` has the lines, and `stdout` what is to
//! be answered.
//!
//! `code NAME` begins a code, and lines that begin with a blank have its bytes in hexadecimal digits; a line that
//! begins with `--` is a note. Any other line is a command, and its answer stands behind it. A place of a block is
//! counted from 1: that of its first let, and the last one is that of its end.
//!
//! - `ready CODE FUNCTION BLOCK PLACE`: the locals that are ready at this place, or `none`.
//! - `waits CODE FUNCTION BLOCK PLACE`: those that are ready once the operands of the let at this place are used.
//! - `lends CODE FUNCTION BLOCK`: whether a parameter of the block is lent, `yes` or `no`.
//! - `constructor CODE NUMBER`: the name and the type of the constructor of this number.

use case_lines::Texts;
use cell_machine::Stack;
use frame_locals::LocalTable;
use grail_code::{Code, decode};
use std::io;

/// How many locals a function has at most.
const MOST_LOCALS: usize = 256;

// Prints the numbers of the locals that have a mark.
fn print_marked(rt: &HostRuntime, marks: &[bool]) -> io::Result<()> {
    let mut none = true;
    for (local, mark) in marks.iter().enumerate() {
        if *mark {
            none = false;
            print!(rt; " {local}")?;
        }
    }
    if none {
        return print!(rt; " none");
    }
    Ok(())
}

// Prints the locals that are ready at a place, counted from 0; once its operands are used, where it waits there.
fn answer_place(
    rt: &HostRuntime,
    code: &Code,
    waits: bool,
    func: u32,
    block: u32,
    place: u32,
) -> io::Result<()> {
    let table = LocalTable::new(rt.alloc(), code)?;
    let mut marks = [false; MOST_LOCALS];
    if waits {
        table.mark_waiting(code, func, block, place, &mut marks);
    } else {
        table.mark_ready(code, func, block, place, &mut marks);
    }
    print_marked(rt, &marks)
}

fn answer_lends(rt: &HostRuntime, code: &Code, func: u32, block: u32) -> io::Result<()> {
    let table = LocalTable::new(rt.alloc(), code)?;
    if table.lends(code, func, block) {
        print!(rt; " yes")
    } else {
        print!(rt; " no")
    }
}

fn answer_constructor(rt: &HostRuntime, code: &Code, number: u32) -> io::Result<()> {
    let stack = Stack::for_code(rt.alloc(), code)?;
    match stack.constructor(&code.types, number) {
        Some((of, con)) => print!(rt; " {} of type {of}", con.name.bytes().escape_ascii()),
        None => print!(rt; " no such constructor"),
    }
}

// The numbers of these words.
fn numbers(words: &[&str]) -> Option<[u32; 3]> {
    match words {
        [first] => Some([first.parse::<u32>().ok()?, 0, 0]),
        [first, second] => Some([first.parse::<u32>().ok()?, second.parse::<u32>().ok()?, 0]),
        [first, second, third] => Some([
            first.parse::<u32>().ok()?,
            second.parse::<u32>().ok()?,
            third.parse::<u32>().ok()?,
        ]),
        _ => None,
    }
}

// Prints what is answered to a command about this code, with these numbers.
fn answer_code(rt: &HostRuntime, command: &str, code: &Code, numbers: [u32; 3]) -> io::Result<()> {
    let [first, second, third] = numbers;
    match (command, third.checked_sub(1)) {
        ("ready", Some(place)) => answer_place(rt, code, false, first, second, place),
        ("waits", Some(place)) => answer_place(rt, code, true, first, second, place),
        ("lends", _) => answer_lends(rt, code, first, second),
        ("constructor", _) => answer_constructor(rt, code, first),
        _ => print!(rt; " no such command"),
    }
}

fn answer(rt: &HostRuntime, codes: &Texts, line: &str) -> io::Result<()> {
    let words: Vec<&str> = line.split_whitespace().collect(rt.alloc())?;
    let [command, name, rest @ ..] = words.as_slice() else {
        return print!(rt; " no such command");
    };
    let (Some(bytes), Some(numbers)) = (codes.find(name), numbers(rest)) else {
        return print!(rt; " no such code or numbers");
    };
    match decode(rt.alloc(), bytes) {
        Ok(code) => answer_code(rt, command, &code, numbers),
        Err(fault) => print!(rt; " {fault}"),
    }
}

/// Answers the lines of a table.
pub(crate) fn answer_lines(rt: &HostRuntime, lines: &[String]) -> io::Result<()> {
    let alloc = rt.alloc();
    let mut codes = Texts::new(alloc);
    for line in lines {
        let line = line.as_str();
        if let Some(name) = line.strip_prefix("code ") {
            codes.begin(alloc, name)?;
        } else if let Some(digits) = line.strip_prefix(" ") {
            codes.extend_digits(alloc, digits)?;
        } else if !line.starts_with("--") {
            print!(rt; "{line}:")?;
            answer(rt, &codes, line)?;
            println!(rt; "")?;
        }
    }
    Ok(())
}
