//! Answers lines about texts of scripts, so that tables of them are data: `stdin` has the lines, and `stdout` what is
//! to be answered.
//!
//! `text` begins a text. `|LINE` adds a line and its line feed to it. `{W*N}` in a line is N times the word W, and
//! `{=N}` the byte N. `programs N` adds N empty programs `p1`, `p2` and so on, and `jobs N` as many jobs `j1`, `j2`. A
//! line that begins with `--` is a note. Any other line is a command, and its answer stands behind it: the numbers of
//! the script and its last entry, or the fault.
//!
//! - `read`: of the text.
//! - `with K |LINE`: of the text with this in place of its line K.
//! - `without K`: of the text without its line K.
//! - `before K |LINE`: of the text with this line before its line K.
//! - `ending |BYTES`: of the text with these bytes behind its last line feed.
//! - `fronts`: of each front of the text, from none to all of it; answers that are equal stand together, with their
//!   number.
mod answers;

use answers::Scripts;
use case_lines::{Text, answer};
use std::alloc::Global;
use std::io;

// Adds as many programs or jobs; false where the line asks for none.
fn add_many(alloc: Global, text: &mut Text, line: &str) -> io::Result<bool> {
    if let Some(count) = line.strip_prefix("programs ") {
        for number in 1..count.parse::<u32>().unwrap_or(0).saturating_add(1) {
            text.add(
                alloc,
                format!(in alloc; "program p{number} grail")?.as_str(),
            )?;
            text.add(alloc, ".")?;
        }
        return Ok(true);
    }
    let Some(count) = line.strip_prefix("jobs ") else {
        return Ok(false);
    };
    for number in 1..count.parse::<u32>().unwrap_or(0).saturating_add(1) {
        text.add(alloc, format!(in alloc; "job j{number} p f 1")?.as_str())?;
    }
    Ok(true)
}

/// Answers the lines of a table.
pub(crate) fn answer_lines(rt: &HostRuntime, lines: &[String]) -> io::Result<()> {
    let alloc = rt.alloc();
    let mut text = Text::new(alloc);
    for line in lines {
        let line = line.as_str();
        if line.starts_with("--") {
            continue;
        }
        if line == "text" {
            text = Text::new(alloc);
        } else if let Some(added) = line.strip_prefix("|") {
            text.add(alloc, added)?;
        } else if !add_many(alloc, &mut text, line)? {
            println!(rt; "{line}:{}", answer(alloc, &Scripts, &text, line)?)?;
        }
    }
    Ok(())
}
