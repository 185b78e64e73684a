ghost use Rattle.std.specs.Prelude.{◌≡◌, ℕ, ◌+◌, ◌-◌, ◌<◌, ◌≤◌, ◌↔◌, List, [], ◌++◌, Some, None, Option, Ok, min, length, take, drop, true, false, cond, vec_len, vec_capacity, IfOk, IsOk, MatchResult};
ghost use Rattle.std.specs.Option.{option_copied};
ghost use Rattle.std.specs.Io.{ReadsAtMost};
ghost use Rattle.std.specs.Io.KnownBytes.{ReadConsumes};
ghost use Rattle.host_io.specs.Counts.{last_count, risen, Rose};
ghost use Rattle.host_io.specs.Memory.{SureSupply, SureStore, told_after};
ghost use Rattle.host_io.specs.Sink.{Tells};

use super::sink::Sink;
use super::source::{Failed, Source};
use std::alloc::{AllocError, Global};
use std::marker::Model;

/// A source over bytes in memory that never fails.
#[derive(Drop)]
pub struct SureSource {
    bytes: Vec<u8>,
    at: usize,
    taken: u64,
}

impl Model for SureSource {
    ghost Value = { SureSupply };

    ghost view = { λ s. record { left = drop s.at s.bytes.items; taken = s.taken } };

    ghost invariant = { λ s. (s.at ≤ vec_len s.bytes) × (s.taken ≤ last_count) };
}

impl SureSource {
    /// A source of these bytes.
    pub fn new(bytes: Vec<u8>) -> SureSource
        ensures { result ≡ record { left = bytes.items; taken = 0 } }
    {
        SureSource {
            bytes,
            at: 0,
            taken: 0,
        }
    }
}

impl Source for SureSource {
    ghost left = { λ s. Some s.left };

    ghost taken = { λ s. s.taken };

    ghost faults = { λ _. 0 };

    #[tactic(auto, using(crate::proofs::Supplying::sure_supplied, crate::proofs::Supplying::sure_supplied_end))]
    fn take(&mut self, into: &mut [u8]) -> Result<usize, Failed>
        requires { 0 < length into.old }
        ensures gives { result ≡ Ok (min (length self.old.left) (length into.old)) }
        ensures bound { ReadsAtMost result into.new }
        ensures bytes { ReadConsumes (Some self.old.left) (Some self.new.left) result into.new }
        ensures end { IfOk result (λ n. (n ≡ 0) ↔ (self.old.left ≡ [])) }
        ensures count { MatchResult result
            (λ n. self.new.taken ≡ risen self.old.taken n)
            (λ _. self.new.taken ≡ self.old.taken) }
    {
        let rest = &self.bytes[self.at..];
        let count = rest.len().min(into.len());
        into[..count].copy_from_slice(&rest[..count]);
        self.at += count;
        self.taken = self.taken.saturating_add(count as u64);
        Ok(count)
    }
}

/// A sink that never fails. It tells its bytes as long as they are at most its room.
#[derive(Drop)]
pub struct SureSink {
    held: Vec<u8>,
    room: usize,
    is_silent: bool,
}

impl Model for SureSink {
    ghost Value = { SureStore };

    ghost view = { λ s. record { told = cond s.is_silent None (Some s.held.items); room = s.room } };

    ghost invariant = { λ s. (vec_len s.held ≤ s.room) × (s.room ≤ vec_capacity s.held) };
}

impl SureSink {
    /// An empty sink with room for `room` bytes. All memory is taken here.
    pub fn new(alloc: Global, room: usize) -> Result<SureSink, AllocError>
        ensures { IfOk result (λ sink. sink ≡ record { told = Some []; room = room }) }
    {
        Ok(SureSink {
            held: Vec::with_capacity(alloc, room)?,
            room,
            is_silent: false,
        })
    }

    /// All bytes that were told so far, or `None` once they were more than the room.
    pub fn told(&self) -> Option<&[u8]>
        ensures { option_copied result ≡ self.now.told }
    {
        if self.is_silent {
            None
        } else {
            Some(&self.held)
        }
    }
}

impl Sink for SureSink {
    ghost told = { λ s. s.told };

    ghost faults = { λ _. 0 };

    fn put(&mut self, piece: &[u8]) -> Result<usize, Failed>
        requires { 0 < length piece.now }
        ensures all { result ≡ Ok (length piece.now) }
        ensures kept { self.new ≡ record self.old { told = told_after self.old.room self.old.told piece.now } }
        ensures bytes { Tells self.old.told self.new.told piece.now }
    {
        if piece.len() <= self.room - self.held.len() {
            self.held.extend_from_slice(piece).unwrap();
        } else {
            self.is_silent = true;
        }
        Ok(piece.len())
    }
}
