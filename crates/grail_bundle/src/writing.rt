ghost use Rattle.std.specs.Prelude.{◌≡◌, ◌++◌, IfOk, OnOk};
ghost use Rattle.grail_bundle.specs.Bundles.{digit_lines, bundle_text};

use crate::bundle::Bundle;
use std::alloc::{AllocError, Global};

// Writes the digits in lines of 64, each with its line feed.
fn push_lines(text: &mut Vec<u8>, digits: &[u8]) -> Result<(), AllocError>
    ensures { OnOk result (text.new.items ≡ text.old.items ++ digit_lines digits.now) }
{
    let mut rest = digits;
    'lines: while rest.len() > 64 {
        let (line, others) = rest.split_at(64);
        text.extend_from_slice(line)?;
        text.push(b'\n')?;
        rest = others;
    }
    text.extend_from_slice(rest)?;
    text.push(b'\n')?;
    Ok(())
}

/// The text of the bundle: the line `grail code`, the code's bytes in lower-case hexadecimal digits, 64 on a line, and
/// the certificate. `AllocError` where memory runs out.
#[tactic(auto, unfolding(crate::specs::Bundles::bundle_text))]
pub fn write_bundle(alloc: Global, bundle: &Bundle) -> Result<Vec<u8>, AllocError>
    ensures { IfOk result (λ text. text.items ≡ bundle_text bundle.now.code bundle.now.cert) }
{
    let mut text = Vec::from_slice(alloc, b"grail code\n")?;
    let digits = hex::encode(alloc, bundle.code())?;
    push_lines(&mut text, digits.as_bytes())?;
    text.extend_from_slice(bundle.cert())?;
    Ok(text)
}
