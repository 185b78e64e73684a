ghost use Rattle.std.specs.Prelude.{◌≡◌, IfOk};
ghost use Rattle.cause_texts.specs.Texts.{cause_text};

use crate::bundles::refusal_text;
use crate::cause::Cause;
use crate::pieces::numbered;
use crate::sources::{inference_text, normal_text, parse_text, type_text, use_text};
use std::alloc::{AllocError, Global};

/// The text of the cause, as it stands behind `refused` in what is written of an input. `AllocError` where memory runs
/// out.
#[tactic(auto, unfolding(crate::specs::Texts::cause_text))]
pub fn cause_text(alloc: Global, cause: &Cause) -> Result<Vec<u8>, AllocError>
    ensures { IfOk result (λ text. text.items ≡ cause_text cause.now) }
{
    match cause {
        Cause::Parse(fault) => parse_text(alloc, fault),
        Cause::Types(fault) => type_text(alloc, fault),
        Cause::Uses(fault) => use_text(alloc, fault),
        Cause::Normal(fault) => normal_text(alloc, fault),
        Cause::NoCert(fault) => inference_text(alloc, fault),
        Cause::Bundle { line } => numbered(alloc, b"bundle line ", *line as u64),
        Cause::Verify(fault) => refusal_text(alloc, fault),
    }
}
