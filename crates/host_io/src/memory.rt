ghost use Rattle.std.specs.Prelude.{◌≡◌, ◌≢◌, ℕ, ◌+◌, ◌-◌, ◌<◌, ◌≤◌, ◌↔◌, ◌⊎◌, List, [], ◌++◌, Some, Option, min, length, take, drop, vec_len, vec_capacity, IfOk, IsErr, OnOk, OnErr, Contains, MatchResult};
ghost use Rattle.host_io.specs.Counts.{last_count, risen, Rose};
ghost use Rattle.host_io.specs.Memory.{Supply, Store, Supplies, Stores};
ghost use Rattle.std.specs.Io.{ReadsAtMost};
ghost use Rattle.std.specs.Io.KnownBytes.{ReadConsumes};
ghost use Rattle.host_io.specs.Sink.{Tells};

use super::sink::Sink;
use super::source::{Failed, Source};
use std::alloc::{AllocError, Global};
use std::marker::Model;

/// A source over bytes in memory, which can be made to fail at any call.
#[derive(Drop)]
pub struct MemorySource {
    bytes: Vec<u8>,
    at: usize,
    most: usize,
    fails: Vec<u64>,
    taken: u64,
    calls: u64,
    faults: u64,
}

impl Model for MemorySource {
    ghost Value = { Supply };

    ghost view = { λ s. record {
      left = drop s.at s.bytes.items;
      taken = s.taken;
      calls = s.calls;
      faults = s.faults;
      most = s.most;
      fails = s.fails.items;
    } };

    ghost invariant = { λ s. (s.at ≤ vec_len s.bytes) × (1 ≤ s.most) × (s.taken ≤ last_count) × (s.calls ≤ last_count) × (s.faults ≤ last_count) };
}

impl MemorySource {
    /// A source of these bytes, which gives at most `most` of them in one call. Its call number `k`,
    /// counted from 0, fails where `k` is in `fails`.
    pub fn new(bytes: Vec<u8>, most: usize, fails: Vec<u64>) -> MemorySource
        requires { 1 ≤ most }
        ensures { result ≡ record {
          left = bytes.items;
          taken = 0;
          calls = 0;
          faults = 0;
          most = most;
          fails = fails.items;
        } }
    {
        MemorySource {
            bytes,
            at: 0,
            most,
            fails,
            taken: 0,
            calls: 0,
            faults: 0,
        }
    }
}

impl Source for MemorySource {
    ghost left = { λ s. Some s.left };

    ghost taken = { λ s. s.taken };

    ghost faults = { λ s. s.faults };

    #[tactic(auto, using(crate::proofs::Supplying::supplied, crate::proofs::Supplying::supplied_end))]
    fn take(&mut self, into: &mut [u8]) -> Result<usize, Failed>
        requires { 0 < length into.old }
        ensures bound { ReadsAtMost result into.new }
        ensures supplies { Supplies self.old self.new result into.new }
        ensures bytes { ReadConsumes (Some self.old.left) (Some self.new.left) result into.new }
        ensures end { IfOk result (λ n. (n ≡ 0) ↔ (self.old.left ≡ [])) }
        ensures count { MatchResult result
            (λ n. self.new.taken ≡ risen self.old.taken n)
            (λ _. self.new.taken ≡ self.old.taken) }
        ensures cause { MatchResult result
            (λ _. self.new.faults ≡ self.old.faults)
            (λ _. Rose self.old.faults self.new.faults) }
    {
        let call = self.calls;
        self.calls = self.calls.saturating_add(1);
        if self.fails.contains(&call) {
            self.faults = self.faults.saturating_add(1);
            return Err(Failed);
        }
        let rest = &self.bytes[self.at..];
        let count = rest.len().min(into.len()).min(self.most);
        into[..count].copy_from_slice(&rest[..count]);
        self.at += count;
        self.taken = self.taken.saturating_add(count as u64);
        Ok(count)
    }
}

/// A sink over memory with room for so many bytes, which can be made to fail at any call.
#[derive(Drop)]
pub struct MemorySink {
    held: Vec<u8>,
    room: usize,
    most: usize,
    fails: Vec<u64>,
    calls: u64,
    faults: u64,
}

impl Model for MemorySink {
    ghost Value = { Store };

    ghost view = { λ s. record {
      told = s.held.items;
      calls = s.calls;
      faults = s.faults;
      room = s.room;
      most = s.most;
      fails = s.fails.items;
    } };

    ghost invariant = { λ s. (vec_len s.held ≤ s.room) × (s.room ≤ vec_capacity s.held) × (1 ≤ s.most) × (s.calls ≤ last_count) × (s.faults ≤ last_count) };
}

impl MemorySink {
    /// An empty sink with room for `room` bytes in all, which takes at most `most` of them in one call.
    /// Its call number `k`, counted from 0, fails where `k` is in `fails`, and so does each call once the
    /// room is full. All memory is taken here.
    pub fn new(
        alloc: Global,
        room: usize,
        most: usize,
        fails: Vec<u64>,
    ) -> Result<MemorySink, AllocError>
        requires { 1 ≤ most }
        ensures { IfOk result (λ sink. sink ≡ record {
          told = [];
          calls = 0;
          faults = 0;
          room = room;
          most = most;
          fails = fails.items;
        }) }
    {
        Ok(MemorySink {
            held: Vec::with_capacity(alloc, room)?,
            room,
            most,
            fails,
            calls: 0,
            faults: 0,
        })
    }

    /// All bytes that were told so far.
    pub fn told(&self) -> &[u8]
        ensures { result.now ≡ self.now.told }
    {
        &self.held
    }

    // Counts one more fault.
    fn fail(&mut self) -> Failed
        ensures { self.new ≡ record self.old { faults = risen self.old.faults 1 } }
    {
        self.faults = self.faults.saturating_add(1);
        Failed
    }
}

impl Sink for MemorySink {
    ghost told = { λ s. Some s.told };

    ghost faults = { λ s. s.faults };

    fn put(&mut self, piece: &[u8]) -> Result<usize, Failed>
        requires { 0 < length piece.now }
        ensures stores { Stores self.old self.new result piece.now }
        ensures some { IfOk result (λ n. 0 < n) }
        ensures bound { IfOk result (λ n. n ≤ length piece.now) }
        ensures bytes { MatchResult result
            (λ n. self.new.told ≡ self.old.told ++ take n piece.now)
            (λ _. self.new.told ≡ self.old.told ++ []) }
        ensures cause { MatchResult result
            (λ _. self.new.faults ≡ self.old.faults)
            (λ _. Rose self.old.faults self.new.faults) }
    {
        let call = self.calls;
        self.calls = self.calls.saturating_add(1);
        let room = self.room - self.held.len();
        if self.fails.contains(&call) {
            return Err(self.fail());
        }
        if room == 0 {
            return Err(self.fail());
        }
        let count = piece.len().min(room).min(self.most);
        self.held.extend_from_slice(&piece[..count]).unwrap();
        Ok(count)
    }
}
