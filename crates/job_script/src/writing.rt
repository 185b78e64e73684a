//! The text of a script.
ghost use Rattle.std.specs.Prelude.{◌≡◌, ◌++◌, ◌∷◌, ℕ, List, [], map, flat_map, IfOk, OnOk};
ghost use Rattle.job_script.specs.Scripts.{Job, Program, AJob, AProgram};
ghost use Rattle.job_script.specs.Text.{IsScriptText, args_part, entry_text, language_name, script_text};
ghost use Rattle.job_script.specs.Words.{entry_of, script_of};
ghost use Rattle.text_lines.specs.Lines.{text_of_lines};
ghost use Rattle.text_lines.specs.Numbers.{number};

use crate::types::{Entry, Language, Script};
use std::alloc::{AllocError, Global};
use text_lines::push_number;

/// Writes a space and a text. `AllocError` where memory runs out.
#[tactic(auto, using(crate::proofs::Joining::spaced))]
pub fn push_word(out: &mut Vec<u8>, word: &[u8]) -> Result<(), AllocError>
    ensures { OnOk result (out.new.items ≡ out.old.items ++ 32 ∷ word.now) }
{
    out.push(b' ')?;
    out.extend_from_slice(word)
}

/// Writes a space and a number. `AllocError` where memory runs out.
pub fn push_count(out: &mut Vec<u8>, value: u64) -> Result<(), AllocError>
    ensures { OnOk result (out.new.items ≡ out.old.items ++ 32 ∷ number value) }
{
    push_number(out, b" ", value)
}

/// Writes a line of a word and a number. `AllocError` where memory runs out.
#[tactic(auto, using(crate::proofs::Joining::sized_line))]
pub fn push_sized(out: &mut Vec<u8>, word: &[u8], value: u64) -> Result<(), AllocError>
    ensures { OnOk result (out.new.items ≡ out.old.items ++ text_of_lines ((word.now ++ 32 ∷ number value) ∷ [])) }
{
    out.extend_from_slice(word)?;
    push_count(out, value)?;
    out.extend_from_slice(b"\n")
}

// The word of a language.
fn language_name(language: Language) -> &'static [u8]
    ensures { result.now ≡ language_name language }
{
    match language {
        Language::Camelot => b"camelot",
        Language::Grail => b"grail",
    }
}

/// Writes a program: its line, its text, and the line that ends it. `AllocError` where memory runs out.
#[tactic(auto, using(crate::proofs::Joining::program_written))]
pub fn push_program(
    out: &mut Vec<u8>,
    name: &[u8],
    language: Language,
    text: &[u8],
) -> Result<(), AllocError>
    ensures { OnOk result (out.new.items ≡ out.old.items ++ entry_text (AProgram (record { name = name.now; language = language; text = text.now }))) }
{
    out.extend_from_slice(b"program")?;
    push_word(out, name)?;
    push_word(out, language_name(language))?;
    out.extend_from_slice(b"\n")?;
    out.extend_from_slice(text)?;
    out.extend_from_slice(b".\n")
}

/// Writes the arguments behind a space, where there are any. `AllocError` where memory runs out.
pub fn push_args(out: &mut Vec<u8>, args: &[u8]) -> Result<(), AllocError>
    ensures { OnOk result (out.new.items ≡ out.old.items ++ args_part args.now) }
{
    if args.is_empty() {
        return Ok(());
    }
    push_word(out, args)
}

// Writes the line of a job.
#[tactic(auto, using(crate::proofs::Joining::job_written))]
fn push_job(
    out: &mut Vec<u8>,
    name: &[u8],
    program: &[u8],
    entry: &[u8],
    fuel: u64,
    args: &[u8],
) -> Result<(), AllocError>
    ensures { OnOk result (out.new.items ≡ out.old.items ++ entry_text
        (AJob (record { name = name.now; program = program.now; entry = entry.now; fuel = fuel; args = args.now }))) }
{
    out.extend_from_slice(b"job")?;
    push_word(out, name)?;
    push_word(out, program)?;
    push_word(out, entry)?;
    push_count(out, fuel)?;
    push_args(out, args)?;
    out.extend_from_slice(b"\n")
}

// Writes an entry.
fn push_entry(out: &mut Vec<u8>, entry: &Entry<'_>) -> Result<(), AllocError>
    ensures { OnOk result (out.new.items ≡ out.old.items ++ entry_text (entry_of entry.now)) }
{
    match *entry {
        Entry::Program {
            name,
            language,
            text,
        } => push_program(out, name, language, text),
        Entry::Job {
            name,
            program,
            entry,
            fuel,
            args,
        } => push_job(out, name, program, entry, fuel, args),
    }
}

// Writes all entries.
#[tactic(auto, using(crate::specs::WritingLaws::one_mapped, crate::specs::WritingLaws::all_mapped))]
fn push_entries(out: &mut Vec<u8>, entries: &[Entry<'_>]) -> Result<(), AllocError>
    ensures { OnOk result (out.new.items ≡ out.old.items ++ flat_map entry_text (map entry_of entries.now)) }
{
    'entries: for entry in entries {
        push_entry(out, entry)?;
    }
    Ok(())
}

/// The text of a script. `AllocError` where memory runs out.
#[tactic(auto, using(crate::proofs::Joining::script_written, crate::proofs::Joining::same_bytes))]
pub fn write_script(alloc: Global, script: &Script<'_>) -> Result<Vec<u8>, AllocError>
    // It is the text of this script.
    ensures text { IfOk result (λ text. text.items ≡ script_text (script_of script.now)) }
    // Where the script was read, these are the bytes that it was read from.
    ensures same { (bytes : List ℕ) → IsScriptText bytes (script_of script.now) → IfOk result (λ text. text.items ≡ bytes) }
{
    let mut out = Vec::new(alloc);
    push_sized(&mut out, b"arena", script.arena as u64)?;
    push_sized(&mut out, b"workers", script.workers as u64)?;
    push_entries(&mut out, &script.items)?;
    Ok(out)
}
