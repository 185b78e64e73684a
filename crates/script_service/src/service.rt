ghost use Rattle.std.specs.Prelude.{◌≡◌, ◌<◌, length, IfOk, MatchResult};
ghost use Rattle.std.specs.List.{AllByRecursion};
ghost use Rattle.job_script.specs.Scripts.{IsScript, IsUpTo};
ghost use Rattle.job_script.specs.Text.{EntryIsShort};
ghost use Rattle.job_script.specs.Words.{script_of};
ghost use Rattle.script_service.specs.Service.{IsReportIn, IsSummary};
ghost use Rattle.script_service.specs.Handed.{IsHandedFor, IsRefused};
ghost use Rattle.script_service.specs.Steps.{IsOf, serve_fault};

use crate::counting::Tallied;
use crate::reporting::{ReportedScript, report_served, summarize_served};
use crate::running::run_jobs;
use cell_machine::Ending;
use cell_span::Span;
use job_script::laws::{law_of_lengths, law_of_scripts};
use job_script::{Script, ScriptFault, make_script, make_texts, read_script};
use job_workers::{Gate, Kept, ServedJobs};
use lease_desk::Event;
use script_plans::laws::law_of_short;
use script_plans::{Plans, plan_script};
use std::alloc::{AllocError, Global};
use std::sync::Wait;
use std::thread::Threads;
use stops::Stop;
use thiserror::Error;

/// What serving a script hands out, with as much of each ending as is kept. It can't be dropped, as its arena can't.
pub struct ServedScript<'a, K> {
    /// The script, as it was read.
    pub script: Script<'a>,
    /// One line for each program, and what was planned of the jobs.
    pub plans: Plans,
    /// What the desk did.
    pub journal: Vec<Event>,
    /// The ending of each run that was planned, as far as it is kept, in the place of its number.
    pub endings: Vec<Option<K>>,
    /// The whole arena, with the cells that the runs left.
    pub arena: Span,
}

/// Why an input isn't served.
#[derive(Clone, Copy, Debug, PartialEq, Eq, Error)]
pub enum ServeFault {
    /// It is no script: its first wrong line, and what is wrong with it.
    #[error("{0}")]
    NoScript(ScriptFault),
    /// Memory ran out.
    #[error("out of memory")]
    Memory,
}

// Want of memory is one wherever it is met.
pub(crate) fn serve_fault(stop: Stop<ScriptFault>) -> ServeFault
    ensures { result ≡ serve_fault stop }
{
    match stop {
        Stop::Fault(fault) => ServeFault::NoScript(fault),
        Stop::Memory => ServeFault::Memory,
    }
}

// Serves a script that was read.
#[tactic(auto, using(crate::proofs::Handing::some_cells, crate::proofs::Handing::few_cells))]
fn serve_read<'a, K: Kept + Send, R: Threads + Wait + Sync, G: Gate + Sync>(
    rt: &R,
    alloc: Global,
    script: Script<'a>,
    gate: &G,
) -> Result<ServedScript<'a, K>, AllocError>
    requires script { IsScript (script_of script) }
    requires short { AllByRecursion (EntryIsShort 4294967295) (script_of script).items }
    ensures { IfOk result (IsOf K.keeps (script_of script.entry)) }
{
    let plans = plan_script(rt, alloc, &script)?;
    let ServedJobs {
        span,
        journal,
        endings,
    } = run_jobs::<K, R, G>(rt, alloc, script.arena, &plans.jobs, script.workers, gate)?;
    Ok(ServedScript {
        script,
        plans,
        journal,
        endings,
        arena: span,
    })
}

/// Serves a script. Each of its programs is compiled from its source, or accepted from its bundle's bytes alone. Its
/// jobs run in one arena, by as many workers as it says, which are handed the gate. Hands out the script, what was
/// planned of it, the journal of the leases, the endings of the runs, and the arena as they left it. The input has
/// fewer than 2^32 bytes; the script's names and texts are parts of it. It may wait for the lock and the desk.
///
/// # Errors
///
/// [`ServeFault::NoScript`] exactly where the input is no script, with its first wrong line. [`ServeFault::Memory`]
/// where memory runs out: the arena is ended then.
pub fn run_script<'a, R: Threads + Wait + Sync, G: Gate + Sync>(
    rt: &R,
    alloc: Global,
    input: &'a [u8],
    gate: &G,
) -> Result<ServedScript<'a, Ending>, ServeFault>
    requires { length input.now < 4294967296 }
    // What is handed out is what comes of the script that the input is the text of; an input is refused for its cause.
    ensures { MatchResult result (IsHandedFor input.now) (IsRefused input.now) }
{
    law_of_scripts();
    law_of_lengths();
    law_of_short();
    match read_script(alloc, input) {
        Ok(script) => match serve_read::<Ending, R, G>(rt, alloc, script, gate) {
            Ok(served) => Ok(served),
            Err(_) => Err(ServeFault::Memory),
        },
        Err(stop) => Err(serve_fault(stop)),
    }
}

/// The report of a script: each of its programs, compiled from its source or accepted from its bundle's bytes alone,
/// with its unit or why it is refused; each of its jobs with what it comes to by the meaning of its own program, its
/// peak and its bound; and the journal of the leases that they had in one arena. With it comes that arena, as the jobs
/// left it. The input has fewer than 2^32 bytes. It may wait for the lock and the desk.
///
/// # Errors
///
/// Those of [`run_script`].
#[tactic(auto, using(crate::proofs::Handing::is_report))]
pub fn serve_script<R: Threads + Wait + Sync, G: Gate + Sync>(
    rt: &R,
    alloc: Global,
    input: &[u8],
    gate: &G,
) -> Result<ReportedScript, ServeFault>
    requires { length input.now < 4294967296 }
    // What is answered is the report of what comes of the input, and the arena that this leaves; an input is refused
    // for its cause.
    ensures { MatchResult result (λ r. IsReportIn input.now r.text.items r.arena) (IsRefused input.now) }
{
    match run_script(rt, alloc, input, gate) {
        Ok(served) => match report_served(alloc, served) {
            Ok(reported) => Ok(reported),
            Err(_) => Err(ServeFault::Memory),
        },
        Err(fault) => Err(fault),
    }
}

/// Serves the drill's script with so many jobs, from 1 to 4,096, by so many workers, from 1 to 16, which are handed the
/// gate, and tells its summary in one line. No value is kept for longer than its run. It may wait for the lock and
/// the desk. `AllocError` where memory runs out. The arena is ended.
pub fn drill<R: Threads + Wait + Sync, G: Gate + Sync>(
    rt: &R,
    alloc: Global,
    jobs: u32,
    workers: u32,
    gate: &G,
) -> Result<Vec<u8>, AllocError>
    requires jobs { IsUpTo 4096 jobs }
    requires workers { IsUpTo 16 workers }
    // What is answered is the summary of what comes of the script.
    ensures { IfOk result (λ text. IsSummary jobs workers text.items) }
{
    let texts = make_texts(alloc, jobs)?;
    let script = make_script(alloc, &texts, jobs, workers)?;
    let served = serve_read::<Tallied, R, G>(rt, alloc, script, gate)?;
    let text = summarize_served(alloc, served)?;
    Ok(text)
}
