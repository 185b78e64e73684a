ghost use Rattle.std.specs.Prelude.{◌≤◌, IfOk, length};
ghost use Rattle.camelot_host.specs.Answers.{input_limit};
ghost use Rattle.camelot_host.specs.Commands.{Verify};
ghost use Rattle.camelot_host.specs.Replies.{IsReply};

use super::refusal::refusal_line;
use super::reply::Reply;
use bundle_licence::license_bundle;
use licence_text::bounds_text;
use std::alloc::{AllocError, Global};
use stops::Stop;

/// The reply to a bundle: what its licence grants, or else the line that tells why it has none.
#[tactic(auto, using(crate::proofs::Verifying::is_bounds, crate::proofs::Verifying::is_unlicensed))]
pub(crate) fn verify_bundle(alloc: Global, input: Vec<u8>) -> Result<Reply, AllocError>
    requires few { length input.items ≤ input_limit }
    ensures { IfOk result (IsReply Verify input.items) }
{
    match license_bundle(alloc, input) {
        Ok(licence) => {
            let output = bounds_text(alloc, &licence)?;
            Ok(Reply::Done {
                output,
                arena: None,
            })
        }
        Err(Stop::Fault(cause)) => {
            let line = refusal_line(alloc, &cause)?;
            Ok(Reply::Refused { line })
        }
        Err(Stop::Memory) => Err(AllocError),
    }
}
