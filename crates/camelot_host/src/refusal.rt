ghost use Rattle.std.specs.Prelude.{◌≡◌, IfOk};
ghost use Rattle.camelot_host.specs.Due.{refused_line};

use cause_texts::{Cause, cause_text};
use std::alloc::{AllocError, Global};

/// The line that a cause is told in.
#[tactic(auto, unfolding(crate::specs::Due::refused_line))]
pub(crate) fn refusal_line(alloc: Global, cause: &Cause) -> Result<Vec<u8>, AllocError>
    ensures { IfOk result (λ line. line.items ≡ refused_line cause.now) }
{
    let mut line = Vec::from_slice(alloc, b"refused ")?;
    let text = cause_text(alloc, cause)?;
    line.extend_from_slice(&text)?;
    line.push(b'\n')?;
    Ok(line)
}
