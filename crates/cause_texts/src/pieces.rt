//! Pieces of texts: labels, names and numbers.
ghost use Rattle.std.specs.Prelude.{◌≡◌, ◌++◌, codes, decimal, IfOk, OnOk};

use camelot_values::Word;
use itoa::Buffer;
use std::alloc::{AllocError, Global};

// A label and bytes at the end.
pub(crate) fn push_bytes(text: &mut Vec<u8>, label: &[u8], bytes: &[u8]) -> Result<(), AllocError>
    ensures { OnOk result (text.new.items ≡ text.old.items ++ label.now ++ bytes.now) }
{
    text.extend_from_slice(label)?;
    text.extend_from_slice(bytes)?;
    Ok(())
}

// A label and a number in decimal at the end.
pub(crate) fn push_number(text: &mut Vec<u8>, label: &[u8], number: u64) -> Result<(), AllocError>
    ensures { OnOk result (text.new.items ≡ text.old.items ++ label.now ++ decimal number) }
{
    push_bytes(text, label, Buffer::new().format(number).as_bytes())
}

// A label and a name.
pub(crate) fn named(alloc: Global, label: &[u8], name: &Word) -> Result<Vec<u8>, AllocError>
    ensures { IfOk result (λ text. text.items ≡ label.now ++ name.now) }
{
    let mut text = Vec::new(alloc);
    push_bytes(&mut text, label, name.bytes())?;
    Ok(text)
}

// A label and a number in decimal.
pub(crate) fn numbered(alloc: Global, label: &[u8], number: u64) -> Result<Vec<u8>, AllocError>
    ensures { IfOk result (λ text. text.items ≡ label.now ++ decimal number) }
{
    let mut text = Vec::new(alloc);
    push_number(&mut text, label, number)?;
    Ok(text)
}

// A label and a name, with the number of a line.
pub(crate) fn named_at(
    alloc: Global,
    label: &[u8],
    name: &Word,
    line: u64,
) -> Result<Vec<u8>, AllocError>
    ensures { IfOk result (λ text. text.items ≡ label.now ++ name.now ++ codes " line " ++ decimal line) }
{
    let mut text = named(alloc, label, name)?;
    push_number(&mut text, b" line ", line)?;
    Ok(text)
}

// A label and a name, with how many there are.
pub(crate) fn named_having(
    alloc: Global,
    label: &[u8],
    name: &Word,
    have: u64,
) -> Result<Vec<u8>, AllocError>
    ensures { IfOk result (λ text. text.items ≡ label.now ++ name.now ++ codes " have " ++ decimal have) }
{
    let mut text = named(alloc, label, name)?;
    push_number(&mut text, b" have ", have)?;
    Ok(text)
}
