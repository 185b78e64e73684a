ghost use Rattle.std.specs.Prelude.{◌≡◌, ◌++◌, ◌∷◌, [], OnOk, MatchOption};
ghost use Rattle.value_text.specs.Due.{further_due, others_due};
ghost use Rattle.value_text.specs.Later.{later_due};

use camelot_values::Kind;
use std::alloc::{AllocError, Global};

/// What is left of a node: a part of this kind and others, each behind a comma. With its last part so many nodes around
/// it are complete.
#[derive(Clone, Copy)]
pub(crate) struct Frame<'a> {
    pub first: Kind,
    pub others: &'a [Kind],
    pub closed: usize,
}

/// What is due behind a part that is read. Nodes whose last part is read or due are only counted, so that a list of any
/// length takes no more room than a short one. A frame is made only where a part has parts of its own and others behind
/// it.
#[derive(Drop)]
pub(crate) struct Later<'a> {
    /// The kinds of the parts that are left of the innermost node; none where it is complete.
    pub inner: &'a [Kind],
    /// How many nodes are complete with these parts.
    pub closed: usize,
    /// What is left of the nodes around them, the innermost last.
    pub frames: Vec<Frame<'a>>,
    /// The kinds of the other values.
    pub others: &'a [Kind],
}

impl<'a> Later<'a> {
    ghost use Rattle.std.specs.Prelude.{reverse};

    /// Other values of these kinds. It takes no memory.
    pub fn values(alloc: Global, others: &'a [Kind]) -> Later<'a>
        ensures { later_due result.inner.now result.closed result.frames.items result.others.now ≡ others_due others.now }
    {
        Later {
            inner: &[],
            closed: 0,
            frames: Vec::new(alloc),
            others,
        }
    }

    // Makes a frame of what is left of the innermost node, so that another may become the innermost.
    #[inline(always)]
    #[tactic(auto, using(crate::proofs::LaterSteps::frame_put, crate::proofs::LaterSteps::nothing))]
    fn shut(&mut self) -> Result<(), AllocError>
        ensures inner { OnOk result (self.new.inner.now ≡ []) }
        ensures same { OnOk result (later_due self.new.inner.now self.new.closed self.new.frames.items self.new.others.now
            ≡ later_due self.old.inner.now self.old.closed self.old.frames.items self.old.others.now) }
    {
        match self.inner {
            [] => {}
            [first, others @ ..] => {
                let frame = Frame {
                    first: *first,
                    others,
                    closed: self.closed,
                };
                self.frames.push(frame)?;
                self.inner = &[];
                self.closed = 0;
            }
        }
        Ok(())
    }

    /// The same behind parts of these kinds of one more node, whose other parts are read.
    #[inline(always)]
    #[tactic(auto, using(crate::proofs::LaterSteps::one_closed, crate::proofs::LaterSteps::one_inner))]
    pub fn put_off(&mut self, kinds: &'a [Kind]) -> Result<(), AllocError>
        ensures { OnOk result (later_due self.new.inner.now self.new.closed self.new.frames.items self.new.others.now
            ≡ further_due kinds.now ++ later_due self.old.inner.now self.old.closed self.old.frames.items self.old.others.now) }
    {
        self.shut()?;
        if kinds.is_empty() {
            if self.closed == usize::MAX {
                return Err(AllocError);
            }
            self.closed += 1;
        } else {
            self.inner = kinds;
        }
        Ok(())
    }

    /// The kind of the next part of the innermost node, and those of the parts behind it. None where it is complete.
    #[inline(always)]
    #[tactic(auto, using(crate::proofs::LaterSteps::nothing))]
    pub fn next_inner(&mut self) -> Option<(Kind, &'a [Kind])>
        ensures { MatchOption result
            ((self.new.inner.now ≡ []) × (later_due self.new.inner.now self.new.closed self.new.frames.items self.new.others.now
            ≡ later_due self.old.inner.now self.old.closed self.old.frames.items self.old.others.now))
            (λ part. later_due self.old.inner.now self.old.closed self.old.frames.items self.old.others.now
            ≡ further_due (part.0 ∷ part.1.now) ++ later_due self.new.inner.now self.new.closed self.new.frames.items self.new.others.now) }
    {
        match self.inner {
            [] => None,
            [first, others @ ..] => {
                self.inner = &[];
                Some((*first, others))
            }
        }
    }

    /// The kind of the next part of the innermost node that has one, and those of the parts behind it, where no node is
    /// complete. None where all nodes are complete.
    #[inline(always)]
    pub fn next_part(&mut self) -> Option<(Kind, &'a [Kind])>
        requires inner { self.old.inner.now ≡ [] }
        requires closed { self.old.closed ≡ 0 }
        ensures { MatchOption result
            ((self.new.inner.now ≡ []) × (self.new.closed ≡ 0) × (self.new.frames.items ≡ [])
            × (later_due self.old.inner.now self.old.closed self.old.frames.items self.old.others.now ≡ others_due self.new.others.now))
            (λ part. later_due self.old.inner.now self.old.closed self.old.frames.items self.old.others.now
            ≡ further_due (part.0 ∷ part.1.now) ++ later_due self.new.inner.now self.new.closed self.new.frames.items self.new.others.now) }
    {
        match self.frames.pop() {
            Some(frame) => {
                self.closed = frame.closed;
                Some((frame.first, frame.others))
            }
            None => None,
        }
    }
}
