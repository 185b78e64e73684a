//! What is said of a text.

use case_lines::Judge;
use job_script::{Entry, Language, ScriptFault, read_script};
use std::alloc::Global;
use std::io;
use stops::Stop;

// The bytes, or how many there are where they are many.
fn shown(alloc: Global, bytes: &[u8]) -> io::Result<String> {
    if bytes.len() > 60 {
        return Ok(format!(in alloc; "{} bytes", bytes.len())?);
    }
    Ok(format!(in alloc; "'{}'", bytes.escape_ascii())?)
}

// An entry, as its parts.
fn shown_entry(alloc: Global, entry: Option<&Entry<'_>>) -> io::Result<String> {
    match entry {
        None => Ok(format!(in alloc; "no entry")?),
        Some(
            Entry::Program {
                name,
                language,
                text,
            },
        ) => Ok(format!(in alloc;
            "program {} camelot {} {}",
            name.escape_ascii(),
            *language == Language::Camelot,
            shown(alloc, text)?
        )?),
        Some(
            Entry::Job {
                name,
                program,
                entry,
                fuel,
                args,
            },
        ) => Ok(format!(in alloc;
            "job {} {} {} {fuel} {}",
            name.escape_ascii(),
            program.escape_ascii(),
            entry.escape_ascii(),
            shown(alloc, args)?
        )?),
    }
}

// What is wrong with a text, and its line.
fn shown_fault(alloc: Global, fault: ScriptFault) -> io::Result<String> {
    match fault {
        ScriptFault::Line { line } => Ok(format!(in alloc; "line {line}")?),
        ScriptFault::Count { line } => Ok(format!(in alloc; "count {line}")?),
        ScriptFault::Repeat { line } => Ok(format!(in alloc; "repeat {line}")?),
    }
}

/// What the reader says of a text.
pub(crate) struct Scripts;

impl Judge for Scripts {
    fn judge(&self, alloc: Global, bytes: &[u8]) -> io::Result<String> {
        if bytes.len() >= 4_294_967_296 {
            return Ok(format!(in alloc; "too long")?);
        }
        match read_script(alloc, bytes) {
            Ok(script) => Ok(format!(in alloc;
                "arena {} workers {} entries {} last {}",
                script.arena,
                script.workers,
                script.items.len(),
                shown_entry(alloc, script.items.last())?
            )?),
            Err(Stop::Fault(fault)) => shown_fault(alloc, fault),
            Err(Stop::Memory) => Ok(format!(in alloc; "memory")?),
        }
    }
}
