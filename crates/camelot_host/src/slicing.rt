ghost use Rattle.std.specs.Prelude.{◌≤◌, IfOk, length};
ghost use Rattle.job_script.specs.Scripts.{IsUpTo};
ghost use Rattle.camelot_host.specs.Answers.{input_limit};
ghost use Rattle.camelot_host.specs.Commands.{Sliced};
ghost use Rattle.camelot_host.specs.Replies.{IsReply};

use super::reply::Reply;
use script_service::{ServeFault, fault_line, slice_script};
use std::alloc::{AllocError, Global};
use std::thread::Threads;

/// The reply to a script whose jobs run in slices of so many steps: what comes of it, or else the line that tells why it
/// is none.
#[tactic(auto, using(crate::proofs::Serving::no_script))]
pub(crate) fn serve_sliced<R: Threads + Sync>(
    rt: &R,
    alloc: Global,
    input: &[u8],
    steps: u32,
) -> Result<Reply, AllocError>
    requires few { length input.now ≤ input_limit }
    requires steps { IsUpTo 1000000000 steps }
    ensures { IfOk result (IsReply (Sliced steps) input.now) }
{
    match slice_script(rt, alloc, input, steps as u64) {
        Ok(output) => Ok(Reply::Done {
            output,
            arena: None,
        }),
        Err(ServeFault::NoScript(fault)) => {
            let line = fault_line(alloc, &fault)?;
            Ok(Reply::Refused { line })
        }
        Err(ServeFault::Memory) => Err(AllocError),
    }
}
