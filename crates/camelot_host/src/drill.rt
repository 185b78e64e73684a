ghost use Rattle.std.specs.Prelude.{ℕ, List, IfOk};
ghost use Rattle.job_script.specs.Scripts.{IsUpTo};
ghost use Rattle.camelot_host.specs.Commands.{Drill};
ghost use Rattle.camelot_host.specs.Replies.{IsReply};

use super::reply::Reply;
use script_service::{Gate, drill};
use std::alloc::{AllocError, Global};
use std::sync::Wait;
use std::thread::Threads;

/// The reply to a drill: the summary of its script, which is served with so many jobs on so many workers.
pub(crate) fn drill_jobs<R: Threads + Wait + Sync, G: Gate + Sync>(
    rt: &R,
    alloc: Global,
    jobs: u32,
    workers: u32,
    gate: &G,
) -> Result<Reply, AllocError>
    requires jobs { IsUpTo 4096 jobs }
    requires workers { IsUpTo 16 workers }
    ensures { (input : List ℕ) → IfOk result (IsReply (Drill jobs workers) input) }
{
    let output = drill(rt, alloc, jobs, workers, gate)?;
    Ok(Reply::Done {
        output,
        arena: None,
    })
}
