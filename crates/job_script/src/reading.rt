ghost use Rattle.std.specs.Prelude.{◌≡◌, ℕ, ◌<◌, ◌≤◌, Some, [], length, MatchResult};
ghost use Rattle.job_script.specs.Scripts.{Script as PlainScript};
ghost use Rattle.job_script.specs.Text.{IsScriptText, IsLineFault, IsCountFault, IsRepeatFault};
ghost use Rattle.job_script.specs.Answers.{HasCause};
ghost use Rattle.job_script.specs.Words.{script_of};
ghost use Rattle.job_script.specs.Reading.{Sized, HProgram, HJob, head_of, script_machine};
ghost use Rattle.job_script.specs.Steps.{Going};
ghost use Rattle.job_script.specs.Heads.{job_view};
ghost use Rattle.job_script.specs.Places.{IsGoing, IsFurther};
ghost use Rattle.job_script.specs.Faults.{stop_of};
ghost use Rattle.job_script.specs.declared.reading.ScriptFault.TheVariants as fault;
ghost use Rattle.stops.specs.Stopping.{FaultIs, IsFault};
ghost use Rattle.stops.specs.declared.stop.Stop.TheVariants.{Memory};
ghost use Rattle.text_lines.specs.Lines.{HasLine};
ghost use Rattle.text_lines.specs.Machines.{Reading};

use super::bodies::read_body;
use super::entries::job_entry;
use super::heads::{Head, JobLine, read_head};
use super::known::KnownNames;
use super::names::add_name;
use super::numbers::read_sized;
use super::stop::LineStop;
use super::types::{Entry, Language, Script};
use std::alloc::Global;
use stops::Stop;
use text_lines::next_line;
use thiserror::Error;

/// The most cells of an arena.
const MOST_ARENA: u64 = 4_194_304;

/// The most workers.
const MOST_WORKERS: u64 = 16;

/// The most programs of a script.
const MOST_PROGRAMS: usize = 64;

/// The most jobs of a script.
const MOST_JOBS: usize = 4096;

// No entry takes fewer bytes: the shortest is a line as `job j p f 1`.
const LEAST_ENTRY: usize = 12;

/// What is wrong with a text that is no script's. Lines are counted from 1.
#[derive(Clone, Copy, Debug, PartialEq, Eq, Error)]
pub enum ScriptFault {
    /// This line is the first that has no form; or the text ends in it, or before it where it is needed.
    #[error("line {line}")]
    Line { line: u64 },
    /// This line is the first that has a form but a number outside its limits, or that has a program or a job too many.
    #[error("count line {line}")]
    Count { line: u64 },
    /// This line is the first that names a program or a job as an earlier one of the same sort.
    #[error("repeat line {line}")]
    Repeat { line: u64 },
}

// Why a text isn't read that stops at this line.
fn stop_at(stop: LineStop, line: u64) -> Stop<ScriptFault>
    ensures { result ≡ stop_of stop line }
{
    match stop {
        LineStop::Line => Stop::Fault(ScriptFault::Line { line }),
        LineStop::Count => Stop::Fault(ScriptFault::Count { line }),
        LineStop::Repeat => Stop::Fault(ScriptFault::Repeat { line }),
        LineStop::Memory => Stop::Memory,
    }
}

// The arena's cells, and what is behind the first line.
fn read_arena(text: &[u8]) -> Result<(u32, &[u8]), Stop<ScriptFault>>
    ensures { MatchResult result (λ p. Reading script_machine text.now (Sized p.0) p.1.now 2) (λ stop. FaultIs (HasCause text.now) stop) }
{
    let Some((line, rest)) = next_line(text) else {
        return Err(Stop::Fault(ScriptFault::Line { line: 1 }));
    };
    match read_sized(line, b"arena", MOST_ARENA) {
        Ok(arena) => Ok((arena as u32, rest)),
        Err(stop) => Err(stop_at(stop, 1)),
    }
}

// The workers, and what is behind the second line.
fn read_workers<'a>(
    text: &[u8],
    arena: u32,
    rest: &'a [u8],
) -> Result<(u32, &'a [u8]), Stop<ScriptFault>>
    requires { Reading script_machine text.now (Sized arena) rest.now 2 }
    ensures { MatchResult result (λ p. Going text.now arena p.0 [] [] [] p.1.now 3) (λ stop. FaultIs (HasCause text.now) stop) }
{
    let Some((line, after)) = next_line(rest) else {
        return Err(Stop::Fault(ScriptFault::Line { line: 2 }));
    };
    match read_sized(line, b"workers", MOST_WORKERS) {
        Ok(workers) => Ok((workers as u32, after)),
        Err(stop) => Err(stop_at(stop, 2)),
    }
}

// What was read of a text, up to a line between two entries.
#[derive(Drop)]
pub(crate) struct Reader<'a> {
    text: &'a [u8],
    arena: u32,
    workers: u32,
    items: Vec<Entry<'a>>,
    programs: KnownNames<'a>,
    jobs: KnownNames<'a>,
    // What is left, and the number of its first line.
    rest: &'a [u8],
    number: u64,
}

impl<'a> Reader<'a> {
    // Behind the first two lines.
    fn new(alloc: Global, text: &'a [u8]) -> Result<Reader<'a>, Stop<ScriptFault>>
        requires { length text.now < 4294967296 }
        ensures { MatchResult result (λ reader. IsGoing text.now reader) (λ stop. FaultIs (HasCause text.now) stop) }
    {
        let (arena, rest) = match read_arena(text) {
            Ok(first) => first,
            Err(stop) => return Err(stop),
        };
        let (workers, rest) = match read_workers(text, arena, rest) {
            Ok(second) => second,
            Err(stop) => return Err(stop),
        };
        let most = (text.len() / LEAST_ENTRY + 1).min(MOST_PROGRAMS + MOST_JOBS);
        let Ok(items) = Vec::with_capacity(alloc, most) else {
            return Err(Stop::Memory);
        };
        Ok(Reader {
            text,
            arena,
            workers,
            items,
            programs: KnownNames::new(alloc),
            jobs: KnownNames::new(alloc),
            rest,
            number: 3,
        })
    }

    // A program, whose first line this is, and its text.
    fn add_program(
        &mut self,
        line: &'a [u8],
        after: &'a [u8],
        name: &'a [u8],
        language: Language,
    ) -> Result<(), Stop<ScriptFault>>
        requires going { IsGoing self.old.text.now self.old }
        requires line { HasLine self.old.rest.now line.now after.now }
        requires head { head_of line.now ≡ Some (HProgram name.now language) }
        ensures { MatchResult result (λ done. IsFurther self.old self.new) (λ stop. FaultIs (HasCause self.old.text.now) stop) }
    {
        match add_name(&mut self.programs, MOST_PROGRAMS, name) {
            Ok(()) => {}
            Err(stop) => return Err(stop_at(stop, self.number)),
        }
        let body = match read_body(after) {
            Ok(body) => body,
            Err(lines) => {
                return Err(Stop::Fault(ScriptFault::Line {
                    line: self.number + 1 + lines,
                }));
            }
        };
        let entry = Entry::Program {
            name,
            language,
            text: body.text,
        };
        let Ok(()) = self.items.push(entry) else {
            return Err(Stop::Memory);
        };
        self.rest = body.after;
        self.number = self.number + 2 + body.lines;
        Ok(())
    }

    // A job, whose line this is.
    fn add_job(
        &mut self,
        line: &'a [u8],
        after: &'a [u8],
        job: &JobLine<'a>,
    ) -> Result<(), Stop<ScriptFault>>
        requires going { IsGoing self.old.text.now self.old }
        requires line { HasLine self.old.rest.now line.now after.now }
        requires head { head_of line.now ≡ Some (HJob (job_view job.now)) }
        requires fuel { job.now.fuel ≤ 1099511627776 }
        requires some { 1 ≤ job.now.fuel }
        ensures { MatchResult result (λ done. IsFurther self.old self.new) (λ stop. FaultIs (HasCause self.old.text.now) stop) }
    {
        match add_name(&mut self.jobs, MOST_JOBS, job.name) {
            Ok(()) => {}
            Err(stop) => return Err(stop_at(stop, self.number)),
        }
        let entry = job_entry(job);
        let Ok(()) = self.items.push(entry) else {
            return Err(Stop::Memory);
        };
        self.rest = after;
        self.number += 1;
        Ok(())
    }

    // The next program or job.
    fn add_entry(&mut self) -> Result<(), Stop<ScriptFault>>
        requires going { IsGoing self.old.text.now self.old }
        requires more { 0 < length self.old.rest.now }
        ensures { MatchResult result (λ done. IsFurther self.old self.new) (λ stop. FaultIs (HasCause self.old.text.now) stop) }
    {
        let Some((line, after)) = next_line(self.rest) else {
            return Err(Stop::Fault(ScriptFault::Line { line: self.number }));
        };
        match read_head(line) {
            Ok(Head::Program { name, language }) => {
                self.add_program(line, after, name, language)
            }
            Ok(Head::Job(job)) => self.add_job(line, after, &job),
            Err(stop) => Err(stop_at(stop, self.number)),
        }
    }
}

// The script of the text, or why there is none.
fn read_whole(alloc: Global, text: &[u8]) -> Result<Script<'_>, Stop<ScriptFault>>
    requires { length text.now < 4294967296 }
    ensures { MatchResult result (λ script. IsScriptText text.now (script_of script)) (λ stop. FaultIs (HasCause text.now) stop) }
{
    let mut reader = match Reader::new(alloc, text) {
        Ok(reader) => reader,
        Err(stop) => return Err(stop),
    };
    'entries: while !reader.rest.is_empty() {
        match reader.add_entry() {
            Ok(()) => {}
            Err(stop) => return Err(stop),
        }
    }
    Ok(Script {
        arena: reader.arena,
        workers: reader.workers,
        items: reader.items,
    })
}

/// Reads the text of a script (`SCRIPTS.md`), in time that is linear in its bytes. `Ok` comes exactly where the text
/// is a script's, and is this script, within its limits and with no name twice. `Line` comes exactly at the first
/// line that has no form, `Count` exactly at the first that has one but is beyond a limit, and `Repeat` exactly at
/// the first that only repeats a name. [`Stop::Memory`] where memory runs out. The text has fewer than 2^32 bytes. The
/// script's names and texts are parts of it.
#[tactic(auto, using(crate::proofs::Answering::script_same))]
pub fn read_script(alloc: Global, bytes: &[u8]) -> Result<Script<'_>, Stop<ScriptFault>>
    requires { length bytes.now < 4294967296 }
    // What is answered is so: the text is this script's, or it has this fault.
    ensures found { MatchResult result (λ script. IsScriptText bytes.now (script_of script)) (λ stop. FaultIs (HasCause bytes.now) stop) }
    // The text of a script is read as this script, unless memory runs out.
    ensures read { (script : PlainScript) → IsScriptText bytes.now script → MatchResult result (λ found. script_of found ≡ script) (λ stop. stop ≡ Memory) }
    // The first line without a form is told, unless memory runs out.
    ensures line { (line : ℕ) → IsLineFault bytes.now line → MatchResult result (λ found. ⊥) (λ stop. IsFault (fault.Line line) stop) }
    // So is the first line beyond a limit.
    ensures count { (line : ℕ) → IsCountFault bytes.now line → MatchResult result (λ found. ⊥) (λ stop. IsFault (fault.Count line) stop) }
    // So is the first line that repeats a name.
    ensures repeat { (line : ℕ) → IsRepeatFault bytes.now line → MatchResult result (λ found. ⊥) (λ stop. IsFault (fault.Repeat line) stop) }
{
    match read_whole(alloc, bytes) {
        Ok(script) => Ok(script),
        Err(stop) => Err(stop),
    }
}
