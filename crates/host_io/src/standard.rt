ghost use Rattle.std.specs.Prelude.{◌≡◌, ℕ, ◌<◌, ◌≤◌, List, Option, None, length, take, IfOk, MatchResult};
ghost use Rattle.std.specs.Io.KnownBytes.{WriteAppends};
ghost use Rattle.host_io.specs.Counts.{last_count, risen, Rose};

use super::sink::Sink;
use super::source::{Failed, Source};
use std::io::{Read, Write};

/// A source over a reader, as standard input. It counts the bytes that it gave and the errors that the
/// reader answered. It tells the bytes that the reader has left where those are known, and of standard
/// input they are not.
#[derive(Drop)]
pub struct StdSource<R: Read> {
    pub reader: R,
    pub taken: u64,
    pub faults: u64,
    pub ghost counts: { (taken ≤ last_count) × (faults ≤ last_count) },
}

impl<R: Read> StdSource<R> {
    /// A source over this reader, from which nothing was taken yet.
    pub fn new(reader: R) -> StdSource<R>
        // It reads from this reader.
        ensures reader { result.reader ≡ reader }
        // No byte was taken yet.
        ensures taken { result.taken ≡ 0 }
        // No fault was met yet.
        ensures faults { result.faults ≡ 0 }
    {
        StdSource {
            reader,
            taken: 0,
            faults: 0,
        }
    }
}

impl<R: Read> Source for StdSource<R> {
    ghost left = { λ s. R.remaining s.reader };

    ghost taken = { λ s. s.taken };

    ghost faults = { λ s. s.faults };

    #[tactic(auto, using(crate::proofs::Reading::ends_exactly))]
    fn take(&mut self, into: &mut [u8]) -> Result<usize, Failed> {
        match self.reader.read(into) {
            Ok(count) => {
                self.taken = self.taken.saturating_add(count as u64);
                Ok(count)
            }
            Err(_) => {
                self.faults = self.faults.saturating_add(1);
                Err(Failed)
            }
        }
    }
}

/// A sink over a writer, as standard output. It counts the errors that the writer answered; a writer that
/// takes no byte counts as one that failed. It tells no content, as nobody knows what becomes of it.
#[derive(Drop)]
pub struct StdSink<W: Write> {
    pub writer: W,
    pub faults: u64,
    pub ghost counts: { faults ≤ last_count },
}

impl<W: Write> StdSink<W> {
    /// A sink over this writer.
    pub fn new(writer: W) -> StdSink<W>
        // It writes to this writer.
        ensures writer { result.writer ≡ writer }
        // No fault was met yet.
        ensures faults { result.faults ≡ 0 }
    {
        StdSink { writer, faults: 0 }
    }
}

impl<W: Write> Sink for StdSink<W> {
    ghost told = { λ _. None };

    ghost faults = { λ s. s.faults };

    fn put(&mut self, piece: &[u8]) -> Result<usize, Failed>
        requires { 0 < length piece.now }
        ensures some { IfOk result (λ n. 0 < n) }
        ensures bound { IfOk result (λ n. n ≤ length piece.now) }

        // Where the writer's content is known, just the bytes that were taken were added to it.
        ensures writer { WriteAppends (W.contents self.old.writer) (W.contents self.new.writer) result piece.now }
        ensures cause { MatchResult result
            (λ _. self.new.faults ≡ self.old.faults)
            (λ _. Rose self.old.faults self.new.faults) }
    {
        let result = self.writer.write(piece);
        if let Ok(count) = result {
            if count > 0 {
                return Ok(count);
            }
        }
        self.faults = self.faults.saturating_add(1);
        Err(Failed)
    }
}
