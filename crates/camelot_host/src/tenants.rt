ghost use Rattle.std.specs.Prelude.{◌≤◌, IfOk, length};
ghost use Rattle.camelot_host.specs.Answers.{input_limit};
ghost use Rattle.camelot_host.specs.Commands.{Tenants};
ghost use Rattle.camelot_host.specs.Replies.{IsReply};

use super::reply::Reply;
use std::alloc::{AllocError, Global};
use std::thread::Threads;
use tenant_service::{TenantsFault, fault_line, serve_tenants};

/// The reply to a script of tenants: what each of them is told, or else the line that tells why it is none.
#[tactic(auto, using(crate::proofs::Serving::no_tenants))]
pub(crate) fn serve_shared<R: Threads + Sync>(
    rt: &R,
    alloc: Global,
    input: &[u8],
) -> Result<Reply, AllocError>
    requires few { length input.now ≤ input_limit }
    ensures { IfOk result (IsReply Tenants input.now) }
{
    match serve_tenants(rt, alloc, input) {
        Ok(output) => Ok(Reply::Done {
            output,
            arena: None,
        }),
        Err(TenantsFault::NoScript(fault)) => {
            let line = fault_line(alloc, &fault)?;
            Ok(Reply::Refused { line })
        }
        Err(TenantsFault::Memory) => Err(AllocError),
    }
}
