//! Answers about jobs that workers serve, all of them the same call.
ghost use Rattle.std.specs.Prelude.{◌≤◌, ◌<◌, length, IfOk, IfSome};
ghost use Rattle.lease_desk.specs.Journal.{AreSizes};
ghost use Rattle.job_world.specs.Plans.{leases_of};
ghost use Rattle.cases_cells.specs.Covered.{IsReadable};

use crate::arenas::new_arena;
use crate::desks::fit;
use crate::licences::gates::{Holds, Refuses};
use crate::licences::jobs::{arguments_of, licence_of};
use cell_machine::Ending;
use job_workers::{Gate, Home, OpenGate, ServedJobs, serve_planned};
use job_world::Jobs;
use licence::Licence;
use std::alloc::Global;
use std::io;
use std::sync::Wait;
use std::thread::Threads;

/// A call, how often it is made, and in what.
#[derive(Drop)]
pub(crate) struct Call<'a> {
    pub(crate) entry: u32,
    pub(crate) fuel: u64,
    pub(crate) copies: u32,
    pub(crate) arena: u32,
    pub(crate) workers: u32,
    /// The word that names the gate: `open`, `hold`, or the number of a job that is refused.
    pub(crate) gate: &'a str,
    pub(crate) text: &'a [u8],
}

// As many plans of the call as there are copies; none where it can't be planned.
fn plan_copies(alloc: Global, licence: Licence, call: &Call<'_>) -> io::Result<Option<Jobs>>
    requires readable { IsReadable licence.code }
    requires there { call.now.entry < length licence.code.funcs }
    requires fuel { 1 ≤ call.now.fuel }
    requires arena { call.now.arena ≤ 2147483648 }
    requires short { length call.now.text.now < 4294967296 }
    ensures { IfOk result (λ found. IfSome found (λ jobs. length jobs.plans ≤ 4096)) }
{
    let mut jobs = Jobs::new(alloc, vec![in alloc; licence]?);
    'copies: for _ in 0..call.copies {
        if jobs.count() >= 4096 {
            return Ok(None);
        }
        let Ok(args) = arguments_of(alloc, jobs.licences()[0].code(), call.entry, call.text) else {
            return Ok(None);
        };
        match jobs.add(0, call.entry, args, call.fuel, call.arena) {
            Ok(_) => {}
            Err(_) => return Ok(None),
        }
    }
    if jobs.count() > 4096 {
        return Ok(None);
    }
    Ok(Some(jobs))
}

// Serves the jobs, and prints how many of them ended and how many events there were; or what came home.
fn print_served<R: Threads + Wait + Sync, G: Gate + Sync>(
    rt: &HostRuntime,
    threads: &R,
    jobs: &Jobs,
    call: &Call<'_>,
    gate: &G,
) -> io::Result<()>
    requires few { length jobs.now.plans ≤ 4096 }
    requires some { 1 ≤ call.now.arena }
    requires arena { call.now.arena ≤ 2147483648 }
    requires sizes { AreSizes call.now.arena (leases_of jobs.now.plans) }
{
    let alloc = rt.alloc();
    let span = new_arena(alloc, call.arena)?;
    match serve_planned::<Ending, R, G>(threads, alloc, span, jobs, call.workers, gate) {
        Ok(
            ServedJobs {
                span,
                journal,
                endings,
            },
        ) => {
            let cells = span.len();
            span.end();
            print!(rt;
                " ended {} events {} cells {cells}",
                endings.len(),
                journal.len()
            )
        }
        Err(Home { span }) => {
            let (first, cells) = (span.first(), span.len());
            span.end();
            print!(rt; " memory: home from {first} cells {cells}")
        }
    }
}

// The same at the gate of this word.
fn print_at_gate<R: Threads + Wait + Sync>(
    rt: &HostRuntime,
    threads: &R,
    jobs: &Jobs,
    call: &Call<'_>,
) -> io::Result<()>
    requires few { length jobs.now.plans ≤ 4096 }
    requires some { 1 ≤ call.now.arena }
    requires arena { call.now.arena ≤ 2147483648 }
    requires sizes { AreSizes call.now.arena (leases_of jobs.now.plans) }
{
    if call.gate == "open" {
        return print_served(rt, threads, jobs, call, &OpenGate);
    }
    if call.gate == "hold" {
        let gate = Holds::new();
        print_served(rt, threads, jobs, call, &gate)?;
        return print!(rt;
            "{}",
            if gate.saw() {
                " beside each other"
            } else {
                " one by one"
            }
        );
    }
    match call.gate.parse::<u32>() {
        Ok(job) => print_served(rt, threads, jobs, call, &Refuses { job }),
        Err(_) => print!(rt; " no such gate"),
    }
}

/// Prints what comes of the call's copies, which workers serve in one arena.
pub(crate) fn answer_serve<R: Threads + Wait + Sync>(
    rt: &HostRuntime,
    threads: &R,
    code: &[u8],
    cert: &[u8],
    call: &Call<'_>,
) -> io::Result<()> {
    let alloc = rt.alloc();
    let Some(licence) = licence_of(rt, code, cert)? else {
        return Ok(());
    };
    let known = (call.entry as usize) < licence.code().funcs.len()
        && call.text.len() < 4_294_967_296;
    if !known
        || call.fuel < 1
        || call.copies > 4096
        || call.arena < 1
        || call.arena > 2_147_483_648
    {
        return print!(rt; " no such call");
    }
    let Some(jobs) = plan_copies(alloc, licence, call)? else {
        return print!(rt; " no such call");
    };
    let sizes = jobs.sizes(alloc)?;
    if !fit(call.arena, &sizes) {
        return print!(rt; " no such call");
    }
    print_at_gate(rt, threads, &jobs, call)
}
