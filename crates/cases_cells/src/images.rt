//! Answers lines about images of paused runs, so that tables of them are data: `stdin` has the lines, and `stdout` what
//! is to be answered.
//!
//! Of texts: `text` begins a text, and `|LINE` adds a line and its line feed to it. The commands are those of the table
//! `scripts`. The answer is `image` where the text is one that is written again as it was, or the line that is wrong.
//!
//! Of runs: `code NAME` begins a code, and lines that begin with a blank have its bytes in hexadecimal digits. `cert
//! NAME` begins a certificate, and lines that begin with a blank have its lines. A line that begins with `--` is a
//! note. The text of the arguments stands between two `|`.
//!
//! - `run CODE CERT FUNCTION FUEL STEPS |ARGUMENTS|`: the image of the run behind so many steps, on the lines below; or
//!   which frames lend then; or at which step the run ended, and how.
//! - `again CODE CERT FUNCTION FUEL STEPS |ARGUMENTS|`: in how many slices of so many steps the run ends, and how. Behind
//!   each slice it is put aside, and goes on from its image in another range.
//! - `on CODE CERT CELLS STEPS`: from here on the commands on texts are of runs. The answer is why no run goes on from
//!   the text by this licence in so many cells; or at which step it ended, within so many, and how; or how many it did.
mod answers;
mod pauses;
mod resuming;
mod running;
mod slices;

use crate::licences::{job_of, licence_of};
use answers::Images;
use case_lines::{Text, Texts, answer};
use resuming::Runs;
use running::answer_job;
use slices::answer_slices;
use std::alloc::Global;
use std::io;

// What lines have said that are no commands.
#[derive(Drop)]
struct Said {
    codes: Texts,
    certs: Texts,
    text: Text,
    in_cert: bool,
    runs: Option<Runs>,
}

impl Said {
    fn new(alloc: Global) -> Said {
        Said {
            codes: Texts::new(alloc),
            certs: Texts::new(alloc),
            text: Text::new(alloc),
            in_cert: false,
            runs: None,
        }
    }

    // Takes a line that says something, or is a note; false where it is a command.
    fn takes(&mut self, alloc: Global, line: &str) -> io::Result<bool> {
        if line.starts_with("--") {
            return Ok(true);
        }
        if line == "text" {
            self.text = Text::new(alloc);
        } else if let Some(added) = line.strip_prefix("|") {
            self.text.add(alloc, added)?;
        } else if let Some(name) = line.strip_prefix("code ") {
            self.in_cert = false;
            self.codes.begin(alloc, name)?;
        } else if let Some(name) = line.strip_prefix("cert ") {
            self.in_cert = true;
            self.certs.begin(alloc, name)?;
        } else if let Some(part) = line.strip_prefix(" ") {
            self.extend(alloc, part)?;
        } else {
            return Ok(false);
        }
        Ok(true)
    }

    // Adds a line of a code, in hexadecimal digits, or one of a certificate.
    fn extend(&mut self, alloc: Global, part: &str) -> io::Result<()> {
        if self.in_cert {
            self.certs.extend(part.as_bytes())?;
            return self.certs.extend(b"\n");
        }
        self.codes.extend_digits(alloc, part)
    }
}

// The numbers of the function, the fuel and the steps.
fn numbers_of(entry: &str, fuel: &str, steps: &str) -> Option<(u32, u64, u32)> {
    Some((
        entry.parse::<u32>().ok()?,
        fuel.parse::<u64>().ok()?,
        steps.parse::<u32>().ok()?,
    ))
}

// Prints what is answered about the run of these words, with these arguments.
fn answer_run(rt: &HostRuntime, said: &Said, words: &[&str], text: &[u8]) -> io::Result<()> {
    let [verb, code, cert, entry, fuel, steps] = words else {
        return print!(rt; " no such command");
    };
    let numbers = numbers_of(entry, fuel, steps);
    match (said.codes.find(code), said.certs.find(cert), numbers) {
        (Some(code), Some(cert), Some((entry, fuel, steps))) => {
            match job_of(rt, code, cert, entry, fuel, text)? {
                Some(job) if *verb == "again" => answer_slices(rt, &job, steps),
                Some(job) => answer_job(rt, &job, steps),
                None => Ok(()),
            }
        }
        _ => print!(rt; " no such code, certificate or number"),
    }
}

// Has the commands on texts be of runs by these words.
fn begin_runs(rt: &HostRuntime, said: &mut Said, words: &[&str]) -> io::Result<()> {
    let ["on", code, cert, cells, steps] = words else {
        return print!(rt; " no such command");
    };
    match (
        said.codes.find(code),
        said.certs.find(cert),
        cells.parse::<u32>().ok(),
        steps.parse::<u32>().ok(),
    ) {
        (Some(code), Some(cert), Some(cells), Some(steps)) => {
            if let Some(licence) = licence_of(rt, code, cert)? {
                said.runs = Some(Runs {
                    licence,
                    cells,
                    steps,
                });
            }
            Ok(())
        }
        _ => print!(rt; " no such code, certificate or number"),
    }
}

fn answer_line(rt: &HostRuntime, said: &mut Said, line: &str) -> io::Result<()> {
    let alloc = rt.alloc();
    if line.starts_with("on ") {
        print!(rt; "{line}:")?;
        let words: Vec<&str> = line.split_whitespace().collect(alloc)?;
        begin_runs(rt, said, &words)?;
        return println!(rt; "");
    }
    if !line.starts_with("run ") && !line.starts_with("again ") {
        let told = match &said.runs {
            Some(runs) => answer(alloc, runs, &said.text, line)?,
            None => answer(alloc, &Images, &said.text, line)?,
        };
        return println!(rt; "{line}:{told}");
    }
    print!(rt; "{line}:")?;
    let parts: Vec<&str> = line.split("|").collect(alloc)?;
    match parts.as_slice() {
        [head, text, ""] => {
            let words: Vec<&str> = head.split_whitespace().collect(alloc)?;
            answer_run(rt, said, &words, text.as_bytes())?;
        }
        _ => print!(rt; " no such command")?,
    }
    println!(rt; "")
}

/// Answers the lines of a table.
pub(crate) fn answer_lines(rt: &HostRuntime, lines: &[String]) -> io::Result<()> {
    let mut said = Said::new(rt.alloc());
    for line in lines {
        let line = line.as_str();
        if !said.takes(rt.alloc(), line)? {
            answer_line(rt, &mut said, line)?;
        }
    }
    Ok(())
}
