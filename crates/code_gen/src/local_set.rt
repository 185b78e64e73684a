//! Sets of a function's locals, which are below 256: a bit for each.
ghost use Rattle.std.specs.Prelude.{◌≡◌, ℕ, ◌<◌, ◌≤◌, ◌==◌, ◌||◌, ◌&&◌, not, IfOk, OnOk};
ghost use Rattle.std.specs.List.{filter, range_with_len};
ghost use Rattle.normal_form.specs.Live.{Marks, unless_bound};
ghost use Rattle.code_gen.specs.Marked.{IsMarked, IsNext, either_live, has, is_set, no_locals, none_live, with_one};

use smallvec::SmallVec;
use std::alloc::{AllocError, Global};

// So many locals take no memory of their own.
const FEW: usize = 4;

/// Locals of a function, of which those below 128 stand in the first word.
#[derive(Clone, Copy, Debug)]
pub(crate) struct LocalSet {
    low: u128,
    high: u128,
}

// The word with this bit set.
fn with_bit(word: u128, at: u32) -> u128
    requires { at < 128 }
    ensures { (y : ℕ) → is_set result y ≡ ((at == y) || is_set word y) }
{
    word | (1 << at)
}

// The word with this bit cleared.
fn without_bit(word: u128, at: u32) -> u128
    requires { at < 128 }
    ensures { (y : ℕ) → y < 128 → is_set result y ≡ (not (at == y) && is_set word y) }
{
    word & !(1 << at)
}

// The word with the bits of both.
fn with_bits(word: u128, other: u128) -> u128
    ensures { (y : ℕ) → is_set result y ≡ (is_set other y || is_set word y) }
{
    word | other
}

// The first bit from `from` on that is set, or 128.
fn next_bit(word: u128, from: u32) -> u32
    requires { from ≤ 128 }
    ensures { IsNext (is_set word) from 128 result }
{
    if from == 128 {
        return 128;
    }
    let rest = word >> from;
    if rest == 0 {
        return 128;
    }
    from + rest.trailing_zeros()
}

// Makes room for so many locals, where they take memory of their own.
#[inline(always)]
fn make_room(locals: &mut SmallVec<u32, 4>, room: usize) -> Result<(), AllocError>
    ensures { OnOk result (locals.new.items ≡ locals.old.items) }
{
    if room > FEW {
        locals.reserve_exact(room)?;
    }
    Ok(())
}

impl LocalSet {
    /// No locals.
    pub(crate) fn new() -> LocalSet
        ensures empty { result ≡ no_locals }
        ensures marked { IsMarked result none_live }
    {
        LocalSet { low: 0, high: 0 }
    }

    /// One local more, if it is below 256.
    pub(crate) fn insert(&mut self, local: u32)
        ensures { (live : Marks) → IsMarked self.old live → IsMarked self.new (with_one local live) }
    {
        if local < 128 {
            self.low = with_bit(self.low, local);
        } else if local < 256 {
            self.high = with_bit(self.high, local - 128);
        }
    }

    /// Without this local.
    pub(crate) fn remove(&mut self, local: u32)
        ensures { (live : Marks) → IsMarked self.old live → IsMarked self.new (unless_bound local live) }
    {
        if local < 128 {
            self.low = without_bit(self.low, local);
        } else if local < 256 {
            self.high = without_bit(self.high, local - 128);
        }
    }

    /// All locals of another set, too.
    pub(crate) fn join(&mut self, other: LocalSet)
        ensures { (live : Marks) → IsMarked self.old live → IsMarked self.new (either_live (has other) live) }
    {
        self.low = with_bits(self.low, other.low);
        self.high = with_bits(self.high, other.high);
    }

    // The first local from `from` on, or 256.
    fn next(self, from: u32) -> u32
        requires { from ≤ 256 }
        ensures { IsNext (has self) from 256 result }
    {
        if from >= 128 {
            return 128 + next_bit(self.high, from - 128);
        }
        let at = next_bit(self.low, from);
        if at < 128 {
            return at;
        }
        128 + next_bit(self.high, 0)
    }

    // The first local from `from` on that is below `end`, or `end`.
    fn next_below(self, from: u32, end: u32) -> u32
        requires from { from ≤ end }
        requires end { end ≤ 256 }
        ensures { IsNext (has self) from end result }
    {
        let at = self.next(from);
        if at < end {
            return at;
        }
        end
    }

    /// Those below `end`, in ascending order.
    pub(crate) fn locals(self, alloc: Global, end: u32) -> Result<SmallVec<u32, 4>, AllocError>
        requires { end ≤ 256 }
        ensures { IfOk result (λ locals. locals.items ≡ filter (has self) (range_with_len 0 end)) }
    {
        let room = self.low.count_ones() as usize + self.high.count_ones() as usize;
        let mut locals = SmallVec::new(alloc);
        make_room(&mut locals, room)?;
        let mut next = self.next_below(0, end);
        while next < end {
            locals.push(next)?;
            next = self.next_below(next + 1, end);
        }
        Ok(locals)
    }
}
