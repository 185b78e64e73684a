ghost use Rattle.std.specs.Prelude.{◌≡◌, Some, MatchResult};
ghost use Rattle.job_script.specs.Reading.{HeadFits, language_of, args_of, program_of, fuel_of, entry_of_job, job_of, head_of, IsRead, IsStopped};
ghost use Rattle.job_script.specs.Heads.{head_view, SameBytes};

use super::names::{is_lower_name, is_word};
use super::numbers::{MOST_FUEL, read_limited};
use super::stop::LineStop;
use super::types::Language;
use text_lines::{cut, next_word};

/// The line of a job, in the text.
#[derive(Drop)]
pub struct JobLine<'a> {
    pub name: &'a [u8],
    pub program: &'a [u8],
    pub entry: &'a [u8],
    pub fuel: u64,
    pub args: &'a [u8],
}

/// The first line of a program, or the line of a job.
#[derive(Drop)]
pub enum Head<'a> {
    Program { name: &'a [u8], language: Language },
    Job(JobLine<'a>),
}

// The language of a program, behind a space.
fn language_of(rest: &[u8]) -> Option<Language>
    ensures { result ≡ language_of rest.now }
{
    if rest == b" camelot".as_slice() {
        return Some(Language::Camelot);
    }
    if rest == b" grail".as_slice() {
        return Some(Language::Grail);
    }
    None
}

// Nothing, or a space and arguments.
fn args_of(rest: &[u8]) -> Option<&[u8]>
    ensures { SameBytes (args_of rest.now) result }
{
    match rest {
        [] => Some(rest),
        [_] => None,
        [first, args @ ..] => {
            if *first != b' ' {
                return None;
            }
            Some(args)
        }
    }
}

/// What is behind the word `program` of a line.
#[tactic(auto, using(crate::proofs::Heading::no_program, crate::proofs::Heading::no_language, crate::proofs::Heading::no_program_name, crate::proofs::Heading::some_program))]
pub fn read_program(rest: &[u8]) -> Result<Head<'_>, LineStop>
    ensures { MatchResult result (λ head. IsRead (program_of rest.now) HeadFits (head_view head)) (λ stop. IsStopped (program_of rest.now) HeadFits stop) }
{
    let Some((name, after)) = next_word(rest) else {
        return Err(LineStop::Line);
    };
    let Some(language) = language_of(after) else {
        return Err(LineStop::Line);
    };
    if !is_word(name) {
        return Err(LineStop::Line);
    }
    Ok(Head::Program { name, language })
}

// The fuel and the arguments of a job of these names.
#[tactic(auto, using(crate::proofs::Heading::no_fuel, crate::proofs::Heading::no_args, crate::proofs::Heading::fuel_stopped, crate::proofs::Heading::some_fuel))]
fn read_fuel<'a>(
    name: &'a [u8],
    program: &'a [u8],
    entry: &'a [u8],
    rest: &'a [u8],
) -> Result<Head<'a>, LineStop>
    ensures { MatchResult result (λ head. IsRead (fuel_of name.now program.now entry.now rest.now) HeadFits
        (head_view head)) (λ stop. IsStopped (fuel_of name.now program.now entry.now rest.now) HeadFits stop) }
{
    let Some((word, after)) = next_word(rest) else {
        return Err(LineStop::Line);
    };
    let Some(args) = args_of(after) else {
        return Err(LineStop::Line);
    };
    let fuel = match read_limited(word, MOST_FUEL) {
        Ok(fuel) => fuel,
        Err(stop) => return Err(stop),
    };
    Ok(Head::Job(JobLine {
        name,
        program,
        entry,
        fuel,
        args,
    }))
}

// The entry of a job and what is behind it.
#[tactic(auto, using(crate::proofs::Heading::no_entry, crate::proofs::Heading::no_entry_name))]
fn read_entry<'a>(name: &'a [u8], program: &'a [u8], rest: &'a [u8]) -> Result<Head<'a>, LineStop>
    ensures { MatchResult result (λ head. IsRead (entry_of_job name.now program.now rest.now) HeadFits
        (head_view head)) (λ stop. IsStopped (entry_of_job name.now program.now rest.now) HeadFits stop) }
{
    let Some((entry, after)) = next_word(rest) else {
        return Err(LineStop::Line);
    };
    if !is_lower_name(entry) {
        return Err(LineStop::Line);
    }
    read_fuel(name, program, entry, after)
}

/// What is behind the word `job` of a line.
#[tactic(auto, using(crate::proofs::Heading::no_job, crate::proofs::Heading::no_job_name, crate::proofs::Heading::no_job_program, crate::proofs::Heading::no_program_word))]
pub fn read_job(rest: &[u8]) -> Result<Head<'_>, LineStop>
    ensures { MatchResult result (λ head. IsRead (job_of rest.now) HeadFits (head_view head)) (λ stop. IsStopped (job_of rest.now) HeadFits stop) }
{
    let Some((name, after)) = next_word(rest) else {
        return Err(LineStop::Line);
    };
    if !is_word(name) {
        return Err(LineStop::Line);
    }
    let Some((program, behind)) = next_word(after) else {
        return Err(LineStop::Line);
    };
    if !is_word(program) {
        return Err(LineStop::Line);
    }
    read_entry(name, program, behind)
}

/// The first line of a program, or the line of a job.
#[tactic(auto, using(crate::proofs::Heading::no_head))]
pub(crate) fn read_head(line: &[u8]) -> Result<Head<'_>, LineStop>
    ensures { MatchResult result (λ head. IsRead (head_of line.now) HeadFits (head_view head)) (λ stop. IsStopped (head_of line.now) HeadFits stop) }
{
    let (tag, rest) = cut(line, b' ');
    if tag == b"program".as_slice() {
        return read_program(rest);
    }
    if tag == b"job".as_slice() {
        return read_job(rest);
    }
    Err(LineStop::Line)
}
