ghost use Rattle.std.specs.Prelude.{◌≤◌, IfOk, length};
ghost use Rattle.camelot_host.specs.Answers.{input_limit};
ghost use Rattle.camelot_host.specs.Commands.{Serve};
ghost use Rattle.camelot_host.specs.Replies.{IsReply};

use super::reply::{Reply, Work};
use script_service::{Gate, ReportedScript, ServeFault, fault_line, serve_script};
use std::alloc::{AllocError, Global};
use std::sync::Wait;
use std::thread::Threads;

/// The reply to a script: its report with the arena that it leaves, or else the line that tells why it is none.
#[tactic(auto, using(crate::proofs::Serving::no_script))]
pub(crate) fn serve<R: Threads + Wait + Sync, G: Gate + Sync>(
    rt: &R,
    alloc: Global,
    input: Vec<u8>,
    gate: &G,
) -> Result<Work, AllocError>
    requires few { length input.items ≤ input_limit }
    ensures { IfOk result (λ work. IsReply Serve input.items work.reply) }
{
    match serve_script(rt, alloc, &input, gate) {
        Ok(ReportedScript { text, arena, left }) => Ok(Work {
            reply: Reply::Done {
                output: text,
                arena: Some(arena),
            },
            left: Some(left),
        }),
        Err(ServeFault::NoScript(fault)) => Ok(Work {
            reply: Reply::Refused {
                line: fault_line(alloc, &fault)?,
            },
            left: None,
        }),
        Err(ServeFault::Memory) => Err(AllocError),
    }
}
