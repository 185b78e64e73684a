//! The program: hands its words, its input and its output to the host, and ends with the host's status.
#![tactic(auto)]

mod saying;

ghost use Rattle.std.specs.Prelude.{◌≡◌};
ghost use Rattle.std.specs.IoError.{error_kind};
ghost use Rattle.camelot_cli.specs.Exits.{exit_of};

use camelot_host::{OpenGate, Status, host_gated};
use host_io::{StdSink, StdSource};
use saying::explain;
use std::io::ErrorKind;
use std::process::ExitCode;
use std::rt::Env;
use std::{env, io};

fn main(rt: HostRuntime) -> ExitCode {
    let status = match words(&rt) {
        Ok(words) => {
            let mut source = StdSource::new(rt.reader());
            let mut sink = StdSink::new(io::writer(&rt));
            let status = host_gated(
                &rt,
                rt.alloc(),
                &words,
                &mut source,
                &mut sink,
                &OpenGate,
            ).leave();
            explain(&rt, &words, status);
            status
        }
        Err(error) => {
            let status = status_without_words(&error);
            explain(&rt, &[], status);
            status
        }
    };
    ExitCode::from(exit_number(status))
}

// The status where the words can't be had. A word that isn't UTF-8 is part of no command.
fn status_without_words(error: &io::Error) -> Status
    // Memory for the words was refused.
    ensures memory { error_kind error.now ≡ ErrorKind.OutOfMemory → result ≡ Status.Memory }
    // A word isn't UTF-8, which is all that else stands in the way.
    ensures usage { (error_kind error.now ≡ ErrorKind.OutOfMemory → ⊥) → result ≡ Status.Usage }
{
    if error.kind() == ErrorKind::OutOfMemory {
        Status::Memory
    } else {
        Status::Usage
    }
}

// The exit status that tells what the host answered.
fn exit_number(status: Status) -> u8
    ensures { result ≡ exit_of status }
{
    match status {
        Status::Ok => 0,
        Status::ReadFault => 1,
        Status::Usage => 2,
        Status::Refused => 3,
        Status::WriteFault => 4,
        Status::Memory => 5,
        Status::TooLong => 6,
    }
}

// The words behind the program's name. A word that isn't UTF-8 is an error.
fn words(rt: &(impl Env + AllocGlobal)) -> io::Result<Vec<String>> {
    let mut words = Vec::new(rt.alloc());
    for word in env::args(rt)?.skip(1) {
        words.push(word)?;
    }
    Ok(words)
}
