//! Answers lines about runs of code with certificates, so that tables of them are data: `stdin` has the lines, and
//! `stdout` what is to be answered.
//!
//! `code NAME` begins a code, and lines that begin with a blank have its bytes in hexadecimal digits. `cert NAME`
//! begins a certificate, and lines that begin with a blank have its lines. A line that begins with `--` is a note. Any
//! other line is a command, and its answer stands behind it. The text of the arguments stands between two `|`.
//!
//! - `bound CODE CERT FUNCTION |ARGUMENTS|`: the bound and the lease of a run of the function of this number.
//! - `run CODE CERT FUNCTION FUEL |ARGUMENTS|`: the same, and how the run ends in the cells of its lease, with so much
//!   fuel.
//! - `halt CODE CERT FUNCTION FUEL |ARGUMENTS|`: the same, but the run's value isn't put together, nor told.
//! - `serve CODE CERT FUNCTION FUEL COPIES ARENA WORKERS GATE |ARGUMENTS|`: the run as so many jobs, numbered from 0,
//!   which so many workers serve in an arena of so many cells: how many ended, of how many events, and the cells that
//!   came back; or, where memory is refused, the first index and the cells of what came home. The gate is `open`; or a
//!   job's number, at which its worker is refused memory; or `hold`, where job 0 waits until job 1 has passed, and it
//!   is told whether it did.
mod gates;
mod jobs;
mod running;
mod serving;

use case_lines::Texts;
pub(crate) use jobs::{Job, job_of, licence_of};
pub(crate) use running::{ending_text, lease_of};
use running::{Question, answer_job};
use serving::{Call, answer_serve};
use std::io;
use std::sync::Wait;
use std::thread::Threads;

// Prints what is answered about a run of these texts.
fn answer_run(
    rt: &HostRuntime,
    bytes: (&[u8], &[u8]),
    entry: u32,
    fuel: u64,
    question: Question,
    text: &[u8],
) -> io::Result<()> {
    let (code, cert) = bytes;
    match job_of(rt, code, cert, entry, fuel, text)? {
        Some(job) => answer_job(rt, &job, question),
        None => Ok(()),
    }
}

// The numbers of these words.
fn numbers_of(entry: &str, fuel: &str) -> Option<(u32, u64)> {
    Some((entry.parse::<u32>().ok()?, fuel.parse::<u64>().ok()?))
}

// The call of these words as so many jobs, where each word is a number.
fn call_of<'a>(words: [&str; 5], gate: &'a str, text: &'a [u8]) -> Option<Call<'a>> {
    let [entry, fuel, copies, arena, workers] = words;
    Some(Call {
        entry: entry.parse::<u32>().ok()?,
        fuel: fuel.parse::<u64>().ok()?,
        copies: copies.parse::<u32>().ok()?,
        arena: arena.parse::<u32>().ok()?,
        workers: workers.parse::<u32>().ok()?,
        gate,
        text,
    })
}

// Prints what is answered to the command of these words, with these arguments.
fn answer<R: Threads + Wait + Sync>(
    rt: &HostRuntime,
    threads: &R,
    codes: &Texts,
    certs: &Texts,
    words: &[&str],
    text: &[u8],
) -> io::Result<()> {
    if let [
        "serve",
        code,
        cert,
        entry,
        fuel,
        copies,
        arena,
        workers,
        gate,
    ] = words
    {
        let call = call_of([*entry, *fuel, *copies, *arena, *workers], *gate, text);
        return match (codes.find(code), certs.find(cert), call) {
            (Some(code), Some(cert), Some(call)) => answer_serve(rt, threads, code, cert, &call),
            _ => print!(rt; " no such code, certificate or number"),
        };
    }
    let (question, code, cert, numbers) = match words {
        ["bound", code, cert, entry] => (Question::Bound, *code, *cert, numbers_of(entry, "1")),
        ["run", code, cert, entry, fuel] => (Question::Run, *code, *cert, numbers_of(entry, fuel)),
        ["halt", code, cert, entry, fuel] => {
            (Question::Halt, *code, *cert, numbers_of(entry, fuel))
        }
        _ => return print!(rt; " no such command"),
    };
    match (codes.find(code), certs.find(cert), numbers) {
        (Some(code), Some(cert), Some((entry, fuel))) => {
            answer_run(rt, (code, cert), entry, fuel, question, text)
        }
        _ => print!(rt; " no such code, certificate or number"),
    }
}

fn answer_line<R: Threads + Wait + Sync>(
    rt: &HostRuntime,
    threads: &R,
    codes: &Texts,
    certs: &Texts,
    line: &str,
) -> io::Result<()> {
    let parts: Vec<&str> = line.split("|").collect(rt.alloc())?;
    match parts.as_slice() {
        [head, text, ""] => {
            let words: Vec<&str> = head.split_whitespace().collect(rt.alloc())?;
            print!(rt; "{line}:")?;
            answer(rt, threads, codes, certs, &words, text.as_bytes())?;
            println!(rt; "")
        }
        _ => println!(rt; "{line}: no such command"),
    }
}

// Adds a line of a code, in hexadecimal digits, or one of a certificate.
fn extend(
    rt: &HostRuntime,
    codes: &mut Texts,
    certs: &mut Texts,
    in_cert: bool,
    text: &str,
) -> io::Result<()> {
    if in_cert {
        certs.extend(text.as_bytes())?;
        return certs.extend(b"\n");
    }
    codes.extend_digits(rt.alloc(), text)
}

/// Answers the lines of a table.
pub(crate) fn answer_lines<R: Threads + Wait + Sync>(
    rt: &HostRuntime,
    threads: &R,
    lines: &[String],
) -> io::Result<()> {
    let alloc = rt.alloc();
    let mut codes = Texts::new(alloc);
    let mut certs = Texts::new(alloc);
    let mut in_cert = false;
    for line in lines {
        let line = line.as_str();
        if let Some(name) = line.strip_prefix("code ") {
            in_cert = false;
            codes.begin(alloc, name)?;
        } else if let Some(name) = line.strip_prefix("cert ") {
            in_cert = true;
            certs.begin(alloc, name)?;
        } else if let Some(text) = line.strip_prefix(" ") {
            extend(rt, &mut codes, &mut certs, in_cert, text)?;
        } else if !line.starts_with("--") {
            answer_line(rt, threads, &codes, &certs, line)?;
        }
    }
    Ok(())
}
