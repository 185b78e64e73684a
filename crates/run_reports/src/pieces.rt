//! Pieces of lines: labels with what stands behind them.
ghost use Rattle.std.specs.Prelude.{◌≡◌, ◌++◌, decimal, OnOk};

use itoa::Buffer;
use std::alloc::AllocError;
use value_text::push_small;

/// Writes a label and a text at the end. `AllocError` where memory runs out. It stands in place, where the label's length
/// is known.
#[inline(always)]
#[tactic(auto, using(crate::proofs::Joining::two))]
pub fn push_text(out: &mut Vec<u8>, label: &[u8], text: &[u8]) -> Result<(), AllocError>
    // Both stand behind what was there.
    ensures { OnOk result (out.new.items ≡ out.old.items ++ (label.now ++ text.now)) }
{
    out.extend_from_slice(label)?;
    out.extend_from_slice(text)?;
    Ok(())
}

// Writes a number in decimal at the end.
fn push_decimal(out: &mut Vec<u8>, number: u64) -> Result<(), AllocError>
    ensures { OnOk result (out.new.items ≡ out.old.items ++ decimal number) }
{
    if number < 1000 {
        return push_small(out, number as u32);
    }
    out.extend_from_slice(Buffer::new().format(number).as_bytes())
}

/// Writes a label and a number in decimal at the end. `AllocError` where memory runs out. It stands in place, as
/// [`push_text`] does.
#[inline(always)]
#[tactic(auto, using(crate::proofs::Joining::two))]
pub fn push_number(out: &mut Vec<u8>, label: &[u8], number: u64) -> Result<(), AllocError>
    // Both stand behind what was there.
    ensures { OnOk result (out.new.items ≡ out.old.items ++ (label.now ++ decimal number)) }
{
    out.extend_from_slice(label)?;
    push_decimal(out, number)?;
    Ok(())
}

/// Writes a label and a sum in decimal at the end. `AllocError` where memory runs out.
pub fn push_wide(out: &mut Vec<u8>, label: &[u8], number: u128) -> Result<(), AllocError>
    // Both stand behind what was there.
    ensures { OnOk result (out.new.items ≡ out.old.items ++ (label.now ++ decimal number)) }
{
    push_text(out, label, Buffer::new().format(number).as_bytes())
}
