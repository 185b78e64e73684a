ghost use Rattle.std.specs.Prelude.{◌≡◌, ℕ, ◌+◌, ◌<◌, ◌≤◌, ◌↔◌, List, Option, length, vec_len, IfOk, IfErr, OnOk, IsErrOf, MatchResult};
ghost use Rattle.std.specs.Io.{ReadsAtMost};
ghost use Rattle.std.specs.Io.KnownBytes.{ReadConsumes, IsAtEnd};
ghost use Rattle.host_io.specs.Counts.{last_count, risen, Rose};
ghost use Rattle.host_io.specs.Source.{EndsExactly, Took, StopTook, StopCause};
ghost use Rattle.host_io.specs.declared.source.ReadStop.TheVariants.{Fault, Memory};

use std::alloc::{AllocError, Global};
use thiserror::Error;

/// A source or a sink failed: its count of faults rose in this call.
#[derive(Clone, Copy, Debug, PartialEq, Eq, Error)]
#[error("the device failed")]
pub struct Failed;

/// Bytes that come from outside.
pub trait Source {
    // The bytes that are left, where the source tells them.
    ghost left: { Self → Option (List ℕ) };

    // How many bytes were taken so far.
    ghost taken: { Self → ℕ };

    // How many faults there were so far.
    ghost faults: { Self → ℕ };

    /// Puts some of the bytes that are left at the front of `into`, and answers how many; 0 is the end of
    /// input. At `Failed` no byte was taken.
    fn take(&mut self, into: &mut [u8]) -> Result<usize, Failed>
        requires { 0 < length into.old }
        // No more bytes are given than there is room for.
        ensures bound { ReadsAtMost result into.new }
        // What was put into the front of the room are the next bytes that were left, and these are gone.
        ensures bytes { ReadConsumes (left self.old) (left self.new) result into.new }
        // No byte comes exactly where none is left.
        ensures end { IfOk result (EndsExactly (left self.old)) }
        // The count of bytes rises by what was given; at `Failed` it stays.
        ensures count { MatchResult result
            (λ n. taken self.new ≡ risen (taken self.old) n)
            (λ _. taken self.new ≡ taken self.old) }
        // `Failed` comes just where the count of faults rose in this call.
        ensures cause { MatchResult result
            (λ _. faults self.new ≡ faults self.old)
            (λ _. Rose (faults self.old) (faults self.new)) };
}

/// Why a reading stopped before the end of input.
#[derive(Clone, Copy, Debug, PartialEq, Eq, Error)]
pub enum ReadStop {
    /// The source failed.
    #[error("the input could not be read")]
    Fault,
    /// There is at least one byte more than the limit.
    #[error("the input is too long")]
    TooLong,
    /// There is no memory for the bytes.
    #[error("out of memory")]
    Memory,
}

impl From<Failed> for ReadStop {
    ghost from_gives = { λ _ stop. stop ≡ Fault };

    fn from(_failed: Failed) -> ReadStop {
        ReadStop::Fault
    }
}

impl From<AllocError> for ReadStop {
    ghost from_gives = { λ _ stop. stop ≡ Memory };

    fn from(_error: AllocError) -> ReadStop {
        ReadStop::Memory
    }
}

// How many bytes are asked for at a time.
const CHUNK: usize = 16384;

/// All bytes up to the end of input, if they are at most `limit`.
///
/// After a refusal just the bytes that were taken are gone from the source: `limit + 1` at `TooLong`, else
/// at most `limit`.
#[tactic(auto, using(crate::proofs::Reading::takes_more, crate::proofs::Reading::stops_within, crate::proofs::Reading::stops_past, crate::proofs::Reading::stops_full))]
pub fn read_all<S: Source>(alloc: Global, source: &mut S, limit: usize) -> Result<Vec<u8>, ReadStop>
    // At Ok the bytes are those that were taken, in order, none lost and none twice.
    ensures bytes { IfOk result (λ bytes.
        Took (S.left source.old) (S.left source.new) (S.taken source.old) (S.taken source.new) bytes.items) }
    // At Ok the source is at its end.
    ensures end { OnOk result (IsAtEnd (S.left source.new)) }
    // At Ok there are at most `limit` bytes.
    ensures within { IfOk result (λ bytes. vec_len bytes ≤ limit) }
    // `Fault` comes just where the source's count of faults rose; at all other answers it stays.
    ensures cause { MatchResult result
        (λ _. S.faults source.new ≡ S.faults source.old)
        (λ stop. StopCause stop (S.faults source.old) (S.faults source.new)) }

    // The count tells which refusal it is, as long as it has room.
    ensures too_long { S.taken source.old + limit < last_count →
        (IsErrOf result ReadStop.TooLong ↔ (S.taken source.new ≡ S.taken source.old + (limit + 1))) }
    // After a refusal just the bytes that were taken are gone: `limit + 1` at `TooLong`, and else at most `limit`.
    ensures gone { IfErr result (λ stop.
        StopTook stop limit (S.left source.old) (S.left source.new) (S.taken source.old) (S.taken source.new)) }
{
    let mut all = Vec::new(alloc);
    let mut chunk = [0; CHUNK];
    loop {
        let room = limit - all.len();
        let want = room.min(CHUNK - 1) + 1;
        let count = source.take(&mut chunk[..want])?;
        if count == 0 {
            return Ok(all);
        }
        if count > room {
            return Err(ReadStop::TooLong);
        }
        all.extend_from_slice(&chunk[..count])?;
    }
}
