ghost use Rattle.std.specs.Prelude.{◌≡◌, ◌≤◌, length, MatchBool, IfOk};
ghost use Rattle.hex.specs.Hex.{encode_lower};
ghost use Rattle.grail_bundle.specs.Lines.{IsNoLine, IsOther, IsPushed};

use std::alloc::AllocError;

// Decodes a line into bytes, two digits for each, and tells whether it is the line that is written for them: capital
// digits decode too, so the digits that are written are compared.
fn decode_line(line: &[u8], bytes: &mut [u8]) -> bool
    requires { length bytes.old ≤ 32 }
    ensures line { MatchBool result (encode_lower bytes.new ≡ line.now) (IsOther (length bytes.old) line.now) }
    ensures size { length bytes.new ≡ length bytes.old }
{
    if line.len() > 64 {
        return false;
    }
    if hex::decode_to_slice(line, bytes).is_err() {
        return false;
    }
    let mut digits = [0u8; 64];
    let written = &mut digits[..line.len()];
    if hex::encode_to_slice(&*bytes, written).is_err() {
        return false;
    }
    *written == *line
}

/// Puts the bytes of a line of digits behind the others; false where it is no such line.
#[tactic(auto, using(crate::proofs::Decoding::none_small, crate::proofs::Decoding::none_large, crate::proofs::Decoding::none_other))]
pub(crate) fn push_line(code: &mut Vec<u8>, line: &[u8]) -> Result<bool, AllocError>
    ensures { IfOk result (λ fits. MatchBool fits (IsPushed code.old.items code.new.items line.now) (IsNoLine line.now)) }
{
    let size = line.len() / 2;
    if size == 0 {
        return Ok(false);
    }
    if size > 32 {
        return Ok(false);
    }
    let mut room = [0u8; 32];
    let bytes = &mut room[..size];
    if !decode_line(line, bytes) {
        return Ok(false);
    }
    code.extend_from_slice(bytes)?;
    Ok(true)
}
