ghost use Rattle.std.specs.Prelude.{◌≡◌, ◌++◌, OnOk, decimal};
ghost use Rattle.text_lines.specs.Numbers.{number};

use itoa::Buffer;
use std::alloc::AllocError;

/// Writes a label, and a number in decimal.
#[tactic(auto, using(crate::proofs::Written::number_written, crate::proofs::Written::decimal_written))]
pub fn push_number(text: &mut Vec<u8>, label: &[u8], value: u64) -> Result<(), AllocError>
    // The text is the one before, then the label and the number.
    ensures number { OnOk result (text.new.items ≡ text.old.items ++ (label.now ++ number value)) }
    // Its digits are those that std writes.
    ensures decimal { OnOk result (text.new.items ≡ text.old.items ++ (label.now ++ decimal value)) }
{
    text.extend_from_slice(label)?;
    text.extend_from_slice(Buffer::new().format(value).as_bytes())
}
