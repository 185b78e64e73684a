//! Answers about the spelling of codes.

use grail_code::{DecodeFault, decode, migrate};
use std::alloc::AllocError;
use std::io;
use stops::Stop;

// Whether the bytes are what they are migrated to: code in the second format.
fn is_written_again(rt: &HostRuntime, bytes: &[u8]) -> bool {
    match migrate(rt.alloc(), bytes) {
        Ok(migrated) => migrated.as_slice() == bytes,
        Err(_) => false,
    }
}

/// The code of the bytes, if they are the spelling of one, and whether it is written as them again.
pub(crate) fn answer_decode(rt: &HostRuntime, bytes: &[u8]) -> io::Result<()> {
    let code = match decode(rt.alloc(), bytes) {
        Ok(code) => code,
        Err(fault) => return println!(rt; " {fault}"),
    };
    if is_written_again(rt, bytes) {
        println!(rt; " code, and written again")?;
    } else {
        println!(rt; " code, and written otherwise")?;
    }
    for def in code.types.defs() {
        println!(rt; "  {def:?}")?;
    }
    for func in &code.funcs {
        println!(rt; "  {func:?}")?;
    }
    Ok(())
}

/// How many of the proper fronts of the bytes are short.
pub(crate) fn answer_fronts(rt: &HostRuntime, bytes: &[u8]) -> io::Result<()> {
    let mut short = 0u32;
    for size in 0..bytes.len() {
        if decode(rt.alloc(), &bytes[..size]).err() == Some(Stop::Fault(DecodeFault::Short)) {
            short = short.saturating_add(1);
        }
    }
    println!(rt; " {short} of {} are short", bytes.len())
}

// At how many values of the byte at this place the bytes are the spelling of some code, and are written again.
fn values_at(rt: &HostRuntime, bytes: &[u8], place: usize) -> Result<u32, AllocError> {
    let mut codes = 0u32;
    for value in 0..=255u8 {
        let mut text = Vec::from_slice(rt.alloc(), bytes)?;
        if let Some(byte) = text.get_mut(place) {
            *byte = value;
        }
        if is_written_again(rt, &text) {
            codes = codes.saturating_add(1);
        }
    }
    Ok(codes)
}

pub(crate) fn answer_values(rt: &HostRuntime, bytes: &[u8]) -> io::Result<()> {
    for place in 0..bytes.len() {
        print!(rt; " {}", values_at(rt, bytes, place)?)?;
    }
    println!(rt; "")
}

/// The number of the function that the first word names, or the empty name.
pub(crate) fn answer_find(rt: &HostRuntime, bytes: &[u8], words: &[&str]) -> io::Result<()> {
    let name = match words {
        [] => "",
        [name, ..] => name,
    };
    match decode(rt.alloc(), bytes) {
        Ok(code) => match code.func(name.as_bytes()) {
            Some(number) => println!(rt; " function {number}"),
            None => println!(rt; " no such function"),
        },
        Err(fault) => println!(rt; " {fault}"),
    }
}
