//! Writing at the end of bytes.

ghost use Rattle.std.specs.Prelude.{◌≡◌, ◌≤◌, List, ◌++◌, length, map, ℕ, OnOk};
ghost use Rattle.std.specs.List.{AllByRecursion, flat_map};
ghost use Rattle.grail_code.specs.Spelling.{number, counted};

use std::alloc::AllocError;

/// Writes a whole number in LEB128, in as few bytes as it takes.
#[tactic(auto, using(crate::proofs::SpellingWrites::number_more, crate::proofs::SpellingWrites::number_small))]
pub fn number(out: &mut Vec<u8>, value: u32) -> Result<(), AllocError>
    ensures { OnOk result (out.new.items ≡ out.old.items ++ number value) }
{
    let mut rest = value;
    'groups: while rest >= 128 {
        out.push((128 + rest % 128) as u8)?;
        rest /= 128;
    }
    out.push(rest as u8)?;
    Ok(())
}

/// What stands in lists of things that are written one after the other.
pub trait Encode {
    ghost Plain: { Type 0 };

    // the value as plain data
    ghost plain: { Self → Plain };

    // what has a spelling
    ghost Fits: { Plain → Type 0 };

    ghost spell: { Plain → List ℕ };

    /// Writes the value at the end.
    fn encode(&self, out: &mut Vec<u8>) -> Result<(), AllocError>
        requires { Fits (plain self.now) }
        ensures { OnOk result (out.new.items ≡ out.old.items ++ spell (plain self.now)) };
}

#[tactic(auto, using(crate::proofs::SpellingWrites::things_more, crate::proofs::SpellingWrites::things_done))]
fn each<T: Encode>(out: &mut Vec<u8>, things: &[T]) -> Result<(), AllocError>
    requires { AllByRecursion T.Fits (map T.plain things.now) }
    ensures { OnOk result (out.new.items ≡ out.old.items ++ flat_map T.spell (map T.plain things.now)) }
{
    'things: for thing in things {
        thing.encode(out)?;
    }
    Ok(())
}

/// Writes how many things there are, and each.
pub fn list<T: Encode>(out: &mut Vec<u8>, things: &[T]) -> Result<(), AllocError>
    requires few { length things.now ≤ 256 }
    requires fit { AllByRecursion T.Fits (map T.plain things.now) }
    ensures { OnOk result (out.new.items ≡ out.old.items ++ counted T.spell (map T.plain things.now)) }
{
    number(out, things.len() as u32)?;
    each(out, things)
}
