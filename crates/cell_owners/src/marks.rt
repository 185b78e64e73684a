ghost use Rattle.std.specs.Prelude.{◌≡◌, ℕ, ◌+◌, ◌*◌, ◌/◌, ◌%◌, ◌^◌, ◌<◌, length, replicate, slice_index_or, slice_set, vec_len, true, false, IfOk};
ghost use Rattle.std.specs.Int.RustNames.{bit_or};
ghost use Rattle.cell_owners.specs.Bits.{bit_of};

use std::alloc::{AllocError, Global};
use std::marker::Model;

/// A mark for each cell of a range, which says whether the cell has an owner. A mark takes one bit. Contracts see the
/// marks as a list.
#[derive(Drop)]
pub struct CellMarks {
    words: Vec<u64>,
    count: u32,
}

impl Model for CellMarks {
    ghost use Rattle.std.specs.Prelude.{Bool, List};
    ghost use Rattle.cell_owners.specs.Bits.{marks_of, HasBits};

    ghost Value = { List Bool };

    ghost view = { λ m. marks_of m.words.items m.count };

    ghost invariant = { λ m. HasBits m.words.items m.count };
}

// The word of this number.
fn word_at(words: &[u64], place: usize) -> u64
    requires inside { place < length words.now }
    ensures { result ≡ slice_index_or words.now place 0 }
{
    words[place]
}

// The bit of this number.
fn bit_of(words: &[u64], at: u32) -> bool
    requires inside { at / 64 < length words.now }
    ensures { result ≡ bit_of words.now at }
{
    (word_at(words, (at / 64) as usize) >> (at % 64)) & 1 == 1
}

// The word with the bit of this number.
fn with_bit(word: u64, at: u32) -> u64
    requires inside { at < 64 }
    ensures { result ≡ bit_or word (1 * 2 ^ at % 2 ^ 64) }
{
    word | (1 << at)
}

impl CellMarks {
    ghost use Rattle.cell_owners.specs.Marks.{is_marked};

    /// Marks for so many cells, none of which has an owner. `AllocError` where memory runs out.
    #[tactic(auto, using(crate::proofs::Bits::none_marked))]
    pub fn new(alloc: Global, count: u32) -> Result<CellMarks, AllocError>
        ensures { IfOk result (λ marks. marks ≡ replicate count false) }
    {
        let words = vec![in alloc; 0; count as usize / 64 + 1]?;
        Ok(CellMarks { words, count })
    }

    // Whether the cell at this offset has an owner, or there is none at it.
    #[tactic(auto, using(crate::proofs::Bits::marked_in, crate::proofs::Bits::marked_past))]
    pub(crate) fn is_marked(&self, at: u32) -> bool
        ensures { result ≡ is_marked self.now at }
    {
        if at >= self.count {
            return true;
        }
        bit_of(&self.words, at)
    }

    // The cell at this offset has an owner now.
    #[tactic(auto, using(crate::proofs::Bits::marks_count, crate::proofs::Bits::mark_set))]
    pub(crate) fn mark(&mut self, at: u32)
        requires inside { at < length self.old }
        ensures { self.new ≡ slice_set self.old at true }
    {
        let place = (at / 64) as usize;
        self.words[place] = with_bit(word_at(&self.words, place), at % 64);
    }
}
