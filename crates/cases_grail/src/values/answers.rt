//! What is answered to a command.
ghost use Rattle.value_text.specs.Grammar.{AreNamed, DistinctNames};

use super::table::Table;
use camelot_values::{Flat, Kind, Types};
use grail_check::check_code;
use grail_code::decode;
use std::io;
use stops::Stop;
use value_text::{ValueFault, print, read};

/// What of an outcome is printed.
#[derive(Clone, Copy, PartialEq, Eq)]
enum Show {
    /// The values, or the fault.
    Values,
    /// That it was read, or the place of the fault.
    Place,
    /// The sizes of the first value, or the fault.
    Sizes,
}

fn print_stop(rt: &HostRuntime, stop: Stop<ValueFault>) -> io::Result<()> {
    match stop {
        Stop::Fault(ValueFault::BadShape { at }) => print!(rt; " bad {at}"),
        Stop::Fault(ValueFault::TooLong { items }) => print!(rt; " long {items}"),
        Stop::Memory => print!(rt; " memory"),
    }
}

fn print_values(rt: &HostRuntime, types: &Types, values: &[Flat]) -> io::Result<()> {
    print!(rt; " read")?;
    for value in values {
        let text = print(rt.alloc(), value, types)?;
        print!(rt; " [{}]", text.escape_ascii())?;
    }
    Ok(())
}

fn print_sizes(rt: &HostRuntime, types: &Types, values: &[Flat]) -> io::Result<()> {
    print!(rt; " values {}", values.len())?;
    if let [first, ..] = values {
        let text = print(rt.alloc(), first, types)?;
        print!(rt;
            " nodes {} cells {} bytes {}",
            first.items().len(),
            first.cells(types),
            text.len()
        )?;
    }
    Ok(())
}

// Prints what a text is read as.
fn answer_text(
    rt: &HostRuntime,
    types: &Types,
    kinds: &[Kind],
    text: &[u8],
    show: Show,
) -> io::Result<()>
    requires named { AreNamed types.now }
    requires distinct { DistinctNames types.now }
{
    if text.len() >= 4_294_967_296 {
        return print!(rt; " too long a text");
    }
    match (read(rt.alloc(), text, types, kinds), show) {
        (Ok(values), Show::Values) => print_values(rt, types, &values),
        (Ok(_), Show::Place) => print!(rt; " ok"),
        (Ok(values), Show::Sizes) => print_sizes(rt, types, &values),
        (Err(Stop::Fault(ValueFault::BadShape { at })), Show::Place) => print!(rt; " {at}"),
        (Err(stop), _) => print_stop(rt, stop),
    }
}

// Prints what each front of the text is read as.
fn answer_fronts(rt: &HostRuntime, types: &Types, kinds: &[Kind], text: &[u8]) -> io::Result<()>
    requires named { AreNamed types.now }
    requires distinct { DistinctNames types.now }
{
    for count in 0..text.len() {
        answer_text(rt, types, kinds, &text[..count], Show::Place)?;
    }
    answer_text(rt, types, kinds, text, Show::Place)
}

// Answers a command with a text of values of the table's types and kinds.
fn answer_read(rt: &HostRuntime, table: &Table, text: &[u8], command: &str) -> io::Result<()> {
    let alloc = rt.alloc();
    let code = match decode(alloc, &table.code(alloc)?) {
        Ok(code) => code,
        Err(fault) => return print!(rt; " no types: {fault}"),
    };
    match check_code(alloc, &code)? {
        Ok(()) => {}
        Err(fault) => return print!(rt; " no types: {fault}"),
    }
    match command {
        "read" => answer_text(rt, &code.types, &table.kinds, text, Show::Values),
        "fronts" => answer_fronts(rt, &code.types, &table.kinds, text),
        _ => answer_text(rt, &code.types, &table.kinds, text, Show::Sizes),
    }
}

// The text that has the first part so many times, then the second, and then the third so many times.
fn nested(
    rt: &HostRuntime,
    times: u32,
    open: &str,
    middle: &str,
    close: &str,
) -> io::Result<Vec<u8>> {
    let mut text = Vec::new(rt.alloc());
    for _ in 0..times {
        text.extend_from_slice(open.as_bytes())?;
    }
    text.extend_from_slice(middle.as_bytes())?;
    for _ in 0..times {
        text.extend_from_slice(close.as_bytes())?;
    }
    Ok(text)
}

/// Prints the line of a command and its answer.
pub(crate) fn answer(rt: &HostRuntime, table: &mut Table, line: &str) -> io::Result<()> {
    let alloc = rt.alloc();
    print!(rt; "{line}:")?;
    if let Some(kinds) = line.strip_prefix("kinds") {
        table.set_kinds(alloc, kinds)?;
        return println!(rt; " {}", table.kinds.len());
    }
    let parts: Vec<&str> = line.split("|").collect(alloc)?;
    match parts.as_slice() {
        ["read ", text, ""] => answer_read(rt, table, text.as_bytes(), "read")?,
        ["fronts ", text, ""] => answer_read(rt, table, text.as_bytes(), "fronts")?,
        [head, open, middle, close, ""] => {
            let times = match head.strip_prefix("nest ") {
                Some(times) => times.trim().parse::<u32>().unwrap_or(0),
                None => 0,
            };
            let text = nested(rt, times, open, middle, close)?;
            answer_read(rt, table, &text, "nest")?;
        }
        _ => print!(rt; " no such command")?,
    }
    println!(rt; "")
}
