ghost use Rattle.std.specs.Prelude.{◌≡◌, ◌+◌, ◌^◌, ◌-◌, min};
ghost use Rattle.normal_form.specs.Counts.{counted, both};

/// How many locals an expression makes, and how many blocks are ended in it. The counts stand still at the end of their
/// type.
#[derive(Clone, Copy)]
pub(crate) struct Counts {
    pub(crate) locals: u64,
    pub(crate) blocks: u64,
}

impl Counts {
    /// So many locals and blocks.
    pub(crate) fn new(locals: usize, blocks: usize) -> Counts
        ensures { result ≡ counted locals blocks }
    {
        Counts {
            locals: locals as u64,
            blocks: blocks as u64,
        }
    }

    /// One count after another.
    pub(crate) fn and(self, other: Counts) -> Counts
        ensures { result ≡ both self other }
    {
        Counts {
            locals: self.locals.saturating_add(other.locals),
            blocks: self.blocks.saturating_add(other.blocks),
        }
    }
}
