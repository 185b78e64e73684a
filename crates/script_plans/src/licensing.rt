//! The licences of all programs of a script.
ghost use Rattle.std.specs.Prelude.{◌<◌, ◌≤◌, length, map, OnOk, IfOk};
ghost use Rattle.std.specs.List.{AllByRecursion};
ghost use Rattle.job_script.specs.Text.{EntryIsShort};
ghost use Rattle.job_script.specs.Words.{entry_of};
ghost use Rattle.script_plans.specs.Programs.{IsRefusedFor, text_in};
ghost use Rattle.script_plans.specs.Answers.{AreAnswered, AreLicensed, IsLicenceFor, IsAnswer, IsProgramAdded, licensing_of};

use crate::answering::{Answered, answer_programs};
use crate::rows::{Known, Row};
use cause_texts::Cause;
use job_script::{Entry, Language};
use licence::Licence;
use run_reports::ProgramLine;
use std::alloc::{AllocError, Global};
use std::thread::Threads;
use value_text::Inhabited;

/// The programs of a script, in its order.
#[derive(Drop)]
pub struct LicensedPrograms<'a> {
    /// What is known of each, by its name.
    pub rows: Vec<Row<'a>>,
    /// The licences of those that aren't refused.
    pub licences: Vec<Licence>,
    /// One line for each.
    pub lines: Vec<ProgramLine>,
}

// Adds a program that has a licence.
#[tactic(auto, using(crate::proofs::Programs::accepted))]
fn accept<'a>(
    programs: &mut LicensedPrograms<'a>,
    name: &'a [u8],
    language: Language,
    text: &'a [u8],
    licence: Licence,
) -> Result<(), AllocError>
    requires is { IsLicenceFor (text_in language text.now) licence }
    requires few { length programs.old.licences.items < 4294967295 }
    ensures { OnOk result (IsProgramAdded name.now (text_in language text.now) (licensing_of programs.old) (licensing_of programs.new)) }
{
    let known = Known {
        licence: programs.licences.len() as u32,
        inhabited: Inhabited::of(&licence.code().types),
    };
    let unit = licence.cert().unit();
    programs.licences.push(licence)?;
    programs.rows.push(Row {
        name,
        language,
        text,
        known: Some(known),
    })?;
    programs.lines.push(ProgramLine::Accepted { unit })?;
    Ok(())
}

// Adds a program that is refused.
#[tactic(auto, using(crate::proofs::Programs::refused))]
fn refuse<'a>(
    programs: &mut LicensedPrograms<'a>,
    name: &'a [u8],
    language: Language,
    text: &'a [u8],
    cause: Cause,
) -> Result<(), AllocError>
    requires { IsRefusedFor (text_in language text.now) cause }
    ensures { OnOk result (IsProgramAdded name.now (text_in language text.now) (licensing_of programs.old) (licensing_of programs.new)) }
{
    programs.rows.push(Row {
        name,
        language,
        text,
        known: None,
    })?;
    programs.lines.push(ProgramLine::Refused { cause })?;
    Ok(())
}

// Adds a program, by what was answered of it.
fn add_program<'a>(
    programs: &mut LicensedPrograms<'a>,
    answered: Answered<'a>,
) -> Result<(), AllocError>
    requires answer { IsAnswer (text_in answered.language answered.text.now) answered.licence }
    requires few { length programs.old.licences.items < 4294967295 }
    ensures { OnOk result (IsProgramAdded answered.entry.name.now (text_in answered.entry.language answered.entry.text.now)
        (licensing_of programs.old) (licensing_of programs.new)) }
{
    let Answered {
        name,
        language,
        text,
        licence,
    } = answered;
    match licence {
        Ok(licence) => accept(programs, name, language, text, licence),
        Err(cause) => refuse(programs, name, language, text, cause),
    }
}

// Adds all programs of these entries, by their answers.
#[tactic(auto, using(crate::proofs::AllAnswered::none_added, crate::proofs::AllAnswered::next_answer, crate::proofs::AllAnswered::next_few, crate::proofs::AllAnswered::added_more, crate::proofs::AllAnswered::added_all))]
fn add_all<'a>(
    alloc: Global,
    entries: &[Entry<'a>],
    answers: Vec<Answered<'a>>,
) -> Result<LicensedPrograms<'a>, AllocError>
    requires answers { AreAnswered (map entry_of entries.now) answers.items }
    requires few { length (map entry_of entries.now) ≤ 4160 }
    ensures { IfOk result (λ p. AreLicensed (map entry_of entries.now) (licensing_of p)) }
{
    let _ = entries;
    let mut programs = LicensedPrograms {
        rows: Vec::new(alloc),
        licences: Vec::new(alloc),
        lines: Vec::new(alloc),
    };
    'answers: for answered in answers {
        add_program(&mut programs, answered)?;
    }
    Ok(programs)
}

/// All programs of these entries, at most 4,160. Their licences are asked for, once each, by so many parts side by side;
/// one part starts no thread. Each text has fewer than 2^32 bytes. `AllocError` where memory runs out.
pub fn license_all<'a, R: Threads + Sync>(
    rt: &R,
    alloc: Global,
    entries: &[Entry<'a>],
    parts: usize,
) -> Result<LicensedPrograms<'a>, AllocError>
    requires short { AllByRecursion (EntryIsShort 4294967295) (map entry_of entries.now) }
    requires few { length (map entry_of entries.now) ≤ 4160 }
    // Each program has its own line, and is known by its name.
    ensures { IfOk result (λ p. AreLicensed (map entry_of entries.now) (licensing_of p)) }
{
    let answers = answer_programs(rt, alloc, entries, parts)?;
    add_all(alloc, entries, answers)
}
