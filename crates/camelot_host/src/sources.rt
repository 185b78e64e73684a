ghost use Rattle.std.specs.Prelude.{◌≤◌, IfOk, length};
ghost use Rattle.camelot_host.specs.Answers.{input_limit};
ghost use Rattle.camelot_host.specs.Commands.{Compile};
ghost use Rattle.camelot_host.specs.Replies.{IsReply};

use super::refusal::refusal_line;
use super::reply::Reply;
use camelot_compiler::{compile, write_bundle};
use std::alloc::{AllocError, Global};
use stops::Stop;

/// The reply to a source: its bundle, or else the line that tells why it isn't compiled.
#[tactic(auto, using(crate::proofs::Compiling::is_bundle, crate::proofs::Compiling::is_refusal))]
pub(crate) fn compile_source(alloc: Global, input: &[u8]) -> Result<Reply, AllocError>
    requires few { length input.now ≤ input_limit }
    ensures { IfOk result (IsReply Compile input.now) }
{
    match compile(alloc, input) {
        Ok(bundle) => {
            let output = write_bundle(alloc, &bundle)?;
            Ok(Reply::Done {
                output,
                arena: None,
            })
        }
        Err(Stop::Fault(cause)) => {
            let line = refusal_line(alloc, &cause)?;
            Ok(Reply::Refused { line })
        }
        Err(Stop::Memory) => Err(AllocError),
    }
}
