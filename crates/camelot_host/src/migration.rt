ghost use Rattle.std.specs.Prelude.{◌≤◌, ◌<◌, IfOk, length};
ghost use Rattle.camelot_host.specs.Answers.{input_limit};
ghost use Rattle.camelot_host.specs.Commands.{Migrate};
ghost use Rattle.camelot_host.specs.Migrating.{IsMigratedOr};
ghost use Rattle.camelot_host.specs.Replies.{IsReply};

use super::refusal::refusal_line;
use super::reply::Reply;
use cause_texts::Cause;
use grail_bundle::{Bundle, read_bundle, write_bundle};
use grail_code::migrate;
use grail_verifier::Refusal;
use std::alloc::{AllocError, Global};
use stops::Stop;

// The input's bundle, its code in the second format; or why it isn't migrated.
#[tactic(auto, using(crate::proofs::Migrating::has_parts, crate::proofs::Migrating::is_migrated, crate::proofs::Migrating::wrong_code))]
fn migrated(alloc: Global, input: &[u8]) -> Result<Bundle, Stop<Cause>>
    requires few { length input.now < 4294967296 }
    ensures { IsMigratedOr input.now result }
{
    let bundle = match read_bundle(alloc, input) {
        Ok(bundle) => bundle,
        Err(Stop::Fault(fault)) => {
            return Err(Stop::Fault(Cause::Bundle { line: fault.line }));
        }
        Err(Stop::Memory) => return Err(Stop::Memory),
    };
    bundle.kept();
    let (code, cert) = bundle.parts();
    match migrate(alloc, &code) {
        Ok(code) => Ok(Bundle::new(code, cert)),
        Err(Stop::Fault(fault)) => Err(Stop::Fault(Cause::Verify(Refusal::Code(fault)))),
        Err(Stop::Memory) => Err(Stop::Memory),
    }
}

/// The reply to a bundle: the same one, its code in the second format, or else the line that tells why it isn't
/// migrated.
#[tactic(auto, using(crate::proofs::Migrating::is_migration, crate::proofs::Migrating::is_unmigrated))]
pub(crate) fn migrate_bundle(alloc: Global, input: &[u8]) -> Result<Reply, AllocError>
    requires few { length input.now ≤ input_limit }
    ensures { IfOk result (IsReply Migrate input.now) }
{
    match migrated(alloc, input) {
        Ok(bundle) => {
            let output = write_bundle(alloc, &bundle)?;
            Ok(Reply::Done {
                output,
                arena: None,
            })
        }
        Err(Stop::Fault(cause)) => {
            let line = refusal_line(alloc, &cause)?;
            Ok(Reply::Refused { line })
        }
        Err(Stop::Memory) => Err(AllocError),
    }
}
