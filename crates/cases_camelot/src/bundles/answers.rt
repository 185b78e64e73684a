ghost use Rattle.std.specs.Prelude.{◌<◌, length};

use camelot_compiler::{compile, write_bundle};
use cause_texts::{Cause, cause_text};
use std::io;
use stops::Stop;

/// Prints the name of the case and what comes of its text. What stands before the first case has no name, and no
/// answer.
pub(crate) fn answer(rt: &HostRuntime, name: &str, text: &str) -> io::Result<()> {
    let bytes = text.as_bytes();
    if name == "" {
        return Ok(());
    }
    println!(rt; "== {name}")?;
    if bytes.len() >= 4_294_967_296 {
        return println!(rt; "too long a text");
    }
    answer_text(rt, bytes)
}

fn answer_text(rt: &HostRuntime, text: &[u8]) -> io::Result<()>
    requires { length text.now < 4294967296 }
{
    match compile(rt.alloc(), text) {
        Ok(bundle) => print_bytes(rt, &write_bundle(rt.alloc(), &bundle)?),
        Err(Stop::Fault(cause)) => print_cause(rt, &cause),
        Err(Stop::Memory) => println!(rt; "out of memory"),
    }
}

fn print_cause(rt: &HostRuntime, cause: &Cause) -> io::Result<()> {
    print!(rt; "refused ")?;
    print_bytes(rt, &cause_text(rt.alloc(), cause)?)?;
    println!(rt; "")
}

fn print_bytes(rt: &HostRuntime, bytes: &[u8]) -> io::Result<()> {
    match str::from_utf8(bytes) {
        Ok(text) => print!(rt; "{text}"),
        Err(_) => println!(rt; "no text"),
    }
}
