//! The licences of a script's programs, asked for side by side.
ghost use Rattle.std.specs.Prelude.{◌<◌, ◌≤◌, ◌++◌, length, map, OnOk, IfOk};
ghost use Rattle.std.specs.List.{AllByRecursion};
ghost use Rattle.std.specs.Thread.{IsSync};
ghost use Rattle.job_script.specs.Text.{EntryIsShort};
ghost use Rattle.job_script.specs.Words.{entry_of};
ghost use Rattle.script_plans.specs.Programs.{CamelotText, GrailText, text_in};
ghost use Rattle.script_plans.specs.Answers.{IsAnswer, IsAnswerAdded, AreAnswered};

use crate::cutting::{Texts, middle};
use bundle_licence::license_bundle;
use camelot_compiler::license;
use cause_texts::Cause;
use job_script::{Entry, Language};
use licence::Licence;
use std::alloc::{AllocError, Global};
use std::thread::{Threads, join};
use stops::Stop;

/// A program of a script, with its licence or why it has none.
#[derive(Drop)]
pub(crate) struct Answered<'a> {
    pub(crate) name: &'a [u8],
    pub(crate) language: Language,
    pub(crate) text: &'a [u8],
    pub(crate) licence: Result<Licence, Cause>,
}

// The licence of a source, or why it has none.
#[tactic(auto, using(crate::proofs::Programs::source_licensed))]
fn license_source(alloc: Global, text: &[u8]) -> Result<Result<Licence, Cause>, AllocError>
    requires { length text.now < 4294967296 }
    ensures { IfOk result (IsAnswer (CamelotText text.now)) }
{
    match license(alloc, text) {
        Ok(licence) => Ok(Ok(licence)),
        Err(Stop::Fault(cause)) => Ok(Err(cause)),
        Err(Stop::Memory) => Err(AllocError),
    }
}

// The same of a bundle.
fn license_grail(alloc: Global, text: &[u8]) -> Result<Result<Licence, Cause>, AllocError>
    requires { length text.now < 4294967296 }
    ensures { IfOk result (IsAnswer (GrailText text.now)) }
{
    let text = Vec::from_slice(alloc, text)?;
    match license_bundle(alloc, text) {
        Ok(licence) => Ok(Ok(licence)),
        Err(Stop::Fault(cause)) => Ok(Err(cause)),
        Err(Stop::Memory) => Err(AllocError),
    }
}

// The same of a program in its language.
fn license_program(
    alloc: Global,
    language: Language,
    text: &[u8],
) -> Result<Result<Licence, Cause>, AllocError>
    requires { length text.now < 4294967296 }
    ensures { IfOk result (IsAnswer (text_in language text.now)) }
{
    match language {
        Language::Camelot => license_source(alloc, text),
        Language::Grail => license_grail(alloc, text),
    }
}

// Adds the answer to the program of an entry, where it is one.
fn answer_entry<'a>(
    alloc: Global,
    answers: &mut Vec<Answered<'a>>,
    entry: &Entry<'a>,
) -> Result<(), AllocError>
    requires { EntryIsShort 4294967295 (entry_of entry.now) }
    ensures { OnOk result (IsAnswerAdded (entry_of entry.now) answers.old.items answers.new.items) }
{
    match *entry {
        Entry::Program {
            name,
            language,
            text,
        } => {
            let licence = license_program(alloc, language, text)?;
            answers.push(Answered {
                name,
                language,
                text,
                licence,
            })?;
            Ok(())
        }
        Entry::Job { .. } => Ok(()),
    }
}

// The answers to all programs of these entries, one after the other.
#[tactic(auto, using(crate::proofs::AllAnswered::none_answered, crate::proofs::AllAnswered::answered_more))]
fn answer_each<'a>(alloc: Global, entries: &[Entry<'a>]) -> Result<Vec<Answered<'a>>, AllocError>
    requires { AllByRecursion (EntryIsShort 4294967295) (map entry_of entries.now) }
    ensures { IfOk result (λ v. AreAnswered (map entry_of entries.now) v.items) }
{
    let mut answers = Vec::new(alloc);
    'entries: for entry in entries {
        answer_entry(alloc, &mut answers, entry)?;
    }
    Ok(answers)
}

// Those of two parts of the entries, the second behind the first, in threads of their own.
#[cycle(answering)]
#[tactic(auto, using(crate::proofs::AllAnswered::both_answered))]
fn answer_both<'a, R: Threads + Sync>(
    rt: &R,
    alloc: Global,
    front: &[Entry<'a>],
    low: usize,
    back: &[Entry<'a>],
    high: usize,
) -> Result<Vec<Answered<'a>>, AllocError>
    requires low { 1 ≤ low }
    requires high { 1 ≤ high }
    requires front { AllByRecursion (EntryIsShort 4294967295) (map entry_of front.now) }
    requires back { AllByRecursion (EntryIsShort 4294967295) (map entry_of back.now) }
    ensures { IfOk result (λ v. AreAnswered (map entry_of front.now ++ map entry_of back.now) v.items) }
{
    let one = move || -> Result<Vec<Answered<'_>>, AllocError>
        requires { IsSync R.row × AllByRecursion (EntryIsShort 4294967295) (map entry_of front.now) }
        ensures { IfOk result (λ v. AreAnswered (map entry_of front.entry.now) v.items) }
    { answer_programs(rt, alloc, front, low) };
    let other = move || -> Result<Vec<Answered<'_>>, AllocError>
        requires { IsSync R.row × AllByRecursion (EntryIsShort 4294967295) (map entry_of back.now) }
        ensures { IfOk result (λ v. AreAnswered (map entry_of back.entry.now) v.items) }
    { answer_programs(rt, alloc, back, high) };
    let (first, second) = join(rt, one, other);
    let mut all = first?;
    let mut rest = second?;
    all.append(&mut rest)?;
    Ok(all)
}

/// The answers to all programs of these entries, by so many parts side by side. One part starts no thread.
#[cycle(answering)]
#[tactic(auto, using(crate::proofs::AllAnswered::all_answered))]
pub(crate) fn answer_programs<'a, R: Threads + Sync>(
    rt: &R,
    alloc: Global,
    entries: &[Entry<'a>],
    parts: usize,
) -> Result<Vec<Answered<'a>>, AllocError>
    requires { AllByRecursion (EntryIsShort 4294967295) (map entry_of entries.now) }
    ensures { IfOk result (λ v. AreAnswered (map entry_of entries.now) v.items) }
{
    if parts < 2 {
        return answer_each(alloc, entries);
    }
    let place = middle(entries, Texts::Programs);
    if place == 0 || place == entries.len() {
        return answer_each(alloc, entries);
    }
    let low = parts / 2;
    let (front, back) = entries.split_at(place);
    answer_both(rt, alloc, front, low, back, parts - low)
}
