//! Answers lines about codes with certificates, so that tables of them are data: `stdin` has the lines, and `stdout`
//! what is to be answered.
//!
//! `code NAME` begins a code, and lines that begin with a blank have its bytes in hexadecimal digits. `cert NAME`
//! begins a certificate, and lines that begin with a blank have its lines. A line that begins with `--` is a note.
//!
//! `verify CODE CERT EDITS / N TEXT` is answered with what the verifier says: an edit as `3=67` puts these bytes, any
//! number of them, in the place of one byte of the code, counted from 0, and TEXT stands in the place of line N of the
//! certificate, counted from 1, where `|` ends a line. Without TEXT the line is left out; without `/` the certificate
//! is as it stands.
mod certs;

use case_lines::{Texts, edited};
use certificate::CertFault;
use certs::Certs;
use grail_verifier::{Refusal, verify};
use std::io;
use stops::Stop;

// Prints the verdict on these bytes.
fn answer(rt: &HostRuntime, code: &[u8], cert: &[u8]) -> io::Result<()> {
    if code.len() >= 4294967296 || cert.len() >= 4294967296 {
        return println!(rt; " too long");
    }
    let code = Vec::from_slice(rt.alloc(), code)?;
    let cert = Vec::from_slice(rt.alloc(), cert)?;
    match verify(rt.alloc(), code, cert) {
        Ok(licence) => println!(rt; " accepted unit {}", licence.cert().unit()),
        Err(Stop::Fault(Refusal::Cert(CertFault::Number { line }))) => {
            println!(rt; " certificate number line {line}")
        }
        Err(stop) => println!(rt; " {stop}"),
    }
}

// Answers a command, whose edit of the certificate stands behind it.
fn answer_words(
    rt: &HostRuntime,
    codes: &Texts,
    certs: &Certs,
    words: &[&str],
    edit: &str,
) -> io::Result<()> {
    match words {
        ["verify", code, cert, edits @ ..] => match (codes.find(code), certs.find(cert)) {
            (Some(code), Some(lines)) => {
                let code = edited(rt.alloc(), code, edits)?;
                let cert = certs::edited(rt.alloc(), lines, edit)?;
                answer(rt, &code, &cert)
            }
            _ => println!(rt; " no such code or certificate"),
        },
        _ => println!(rt; " no such command"),
    }
}

fn answer_line(rt: &HostRuntime, codes: &Texts, certs: &Certs, line: &str) -> io::Result<()> {
    let (command, edit) = match line.split_once(" / ") {
        Some(parts) => parts,
        None => (line, ""),
    };
    let words: Vec<&str> = command.split_whitespace().collect(rt.alloc())?;
    print!(rt; "{line}:")?;
    answer_words(rt, codes, certs, &words, edit)
}

/// Answers the lines of a table.
pub(crate) fn answer_lines(rt: &HostRuntime, lines: &[String]) -> io::Result<()> {
    let alloc = rt.alloc();
    let mut codes = Texts::new(alloc);
    let mut certs = Certs::new(alloc);
    let mut in_cert = false;
    for line in lines {
        let line = line.as_str();
        if let Some(name) = line.strip_prefix("code ") {
            in_cert = false;
            codes.begin(alloc, name)?;
        } else if let Some(name) = line.strip_prefix("cert ") {
            in_cert = true;
            certs.begin(alloc, name)?;
        } else if let Some(text) = line.strip_prefix(" ") {
            if in_cert {
                certs.extend(alloc, text)?;
            } else {
                codes.extend_digits(alloc, text)?;
            }
        } else if !line.starts_with("--") {
            answer_line(rt, &codes, &certs, line)?;
        }
    }
    Ok(())
}
