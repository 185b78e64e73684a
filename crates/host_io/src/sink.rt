ghost use Rattle.std.specs.Prelude.{◌≡◌, ℕ, ◌<◌, ◌≤◌, List, [], Option, length, take, IfOk, OnOk, OnErr, MatchResult};
ghost use Rattle.host_io.specs.Counts.{Rose};
ghost use Rattle.host_io.specs.Sink.{Tells, TellsFront};

use super::source::Failed;

/// A device that takes bytes.
pub trait Sink {
    // The bytes that were told so far, where the sink tells them.
    ghost told: { Self → Option (List ℕ) };

    // How many faults there were so far.
    ghost faults: { Self → ℕ };

    /// Takes some bytes from the front of `piece`, at least one, and answers how many. At `Failed`
    /// nothing of `piece` was told.
    fn put(&mut self, piece: &[u8]) -> Result<usize, Failed>
        requires { 0 < length piece.now }
        // At Ok at least one byte was taken.
        ensures some { IfOk result (λ n. 0 < n) }
        // No more bytes are taken than the piece has.
        ensures bound { IfOk result (λ n. n ≤ length piece.now) }
        // The bytes that were taken are told, in order and once; at `Failed` none is.
        ensures bytes { MatchResult result
            (λ n. Tells (told self.old) (told self.new) (take n piece.now))
            (λ _. Tells (told self.old) (told self.new) []) }
        // `Failed` comes just where the count of faults rose in this call.
        ensures cause { MatchResult result
            (λ _. faults self.new ≡ faults self.old)
            (λ _. Rose (faults self.old) (faults self.new)) };
}

/// Tells all of `bytes`. At `Failed` a front of them was told.
#[tactic(auto, using(crate::proofs::Writing::tells_more, crate::proofs::Writing::tells_all, crate::proofs::Writing::tells_front))]
pub fn write_all<K: Sink>(sink: &mut K, bytes: &[u8]) -> Result<(), Failed>
    // At Ok just these bytes were told.
    ensures all { OnOk result (Tells (K.told sink.old) (K.told sink.new) bytes.now) }
    // At `Failed` a front of these bytes was told.
    ensures front { OnErr result (TellsFront (K.told sink.old) (K.told sink.new) bytes.now) }
    // `Failed` comes just where the sink's count of faults rose in this call.
    ensures cause { MatchResult result
        (λ _. K.faults sink.new ≡ K.faults sink.old)
        (λ _. Rose (K.faults sink.old) (K.faults sink.new)) }
{
    let mut done = 0;
    while done < bytes.len() {
        done += sink.put(&bytes[done..])?;
    }
    Ok(())
}
