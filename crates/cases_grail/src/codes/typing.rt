//! Answers about the types of codes, and about codes that are checked.

use camelot_values::{Kind, Types};
use grail_check::check_code;
use grail_code::decode;
use std::io;

// Prints the constructors that a value of this kind may have somewhere.
fn print_reached(rt: &HostRuntime, types: &Types, kind: Kind) -> io::Result<()> {
    for number in 0..64 * 64 {
        if types.reaches(kind, number) {
            match types.con(number) {
                Some(con) => print!(rt; " {}", con.name)?,
                None => print!(rt; " ?")?,
            }
        }
    }
    println!(rt; "")
}

/// A line for each type: its name, whether it is a heap kind, and the constructors that it reaches.
pub(crate) fn answer_types(rt: &HostRuntime, bytes: &[u8]) -> io::Result<()> {
    let code = match decode(rt.alloc(), bytes) {
        Ok(code) => code,
        Err(fault) => return println!(rt; " {fault}"),
    };
    println!(rt; "")?;
    for (number, def) in code.types.defs().iter().enumerate() {
        let kind = Kind::Of(number as u32);
        let heap = if code.types.is_heap(kind) {
            " heap"
        } else {
            ""
        };
        print!(rt; "  {}{heap}:", def.name)?;
        print_reached(rt, &code.types, kind)?;
    }
    Ok(())
}

pub(crate) fn answer_check(rt: &HostRuntime, bytes: &[u8]) -> io::Result<()> {
    let code = match decode(rt.alloc(), bytes) {
        Ok(code) => code,
        Err(fault) => return println!(rt; " {fault}"),
    };
    match check_code(rt.alloc(), &code)? {
        Ok(()) => println!(rt; " well formed"),
        Err(fault) => println!(rt; " {fault}"),
    }
}
