ghost use Rattle.std.specs.Prelude.{◌≡◌, slice_get, slice_set, length, replicate, IfOk};
ghost use Rattle.grail_check.specs.Sets.{AreReady};

use super::local_set::LocalSet;
use super::locals::Mark;
use std::alloc::{AllocError, Global};
use std::marker::Model;

/// How the locals of a function stand, and the set of those below 256 that are ready.
#[derive(Drop)]
pub(crate) struct Marks {
    all: Vec<Mark>,
    ready: LocalSet,
}

impl Model for Marks {
    ghost use Rattle.std.specs.Prelude.{List};
    ghost use Rattle.grail_check.specs.declared.locals.Mark.{Mark as OneMark};
    ghost use Rattle.grail_check.specs.Sets.{AreReady};

    ghost Value = { List OneMark };

    ghost view = { λ m. m.all.items };

    ghost invariant = { λ m. AreReady m.all.items m.ready.words };
}

impl Marks {
    /// So many locals, none of them bound.
    #[tactic(auto, using(crate::proofs::ReadyLaws::none_ready))]
    pub(crate) fn new(alloc: Global, count: usize) -> Result<Marks, AllocError>
        ensures { IfOk result (λ marks. marks ≡ replicate count Mark.Unbound) }
    {
        let all = vec![in alloc; Mark::Unbound; count]?;
        let ready = LocalSet::none();
        Ok(Marks { all, ready })
    }

    /// No local is bound.
    #[tactic(auto, using(crate::proofs::ReadyLaws::none_ready))]
    pub(crate) fn clear(&mut self)
        ensures { self.new ≡ replicate (length self.old) Mark.Unbound }
    {
        self.all.fill(Mark::Unbound);
        self.ready = LocalSet::none();
    }

    /// How the local stands, if it is there.
    pub(crate) fn get(&self, local: u32) -> Option<Mark>
        ensures { result ≡ slice_get self.now local }
    {
        self.all.get(local as usize).copied()
    }

    /// The local is bound and unused, if it is there.
    #[tactic(auto, using(std::proofs::lemmas::List::set_past, crate::proofs::ReadyLaws::more_ready))]
    pub(crate) fn set_ready(&mut self, local: u32)
        ensures { self.new ≡ slice_set self.old local Mark.Ready }
    {
        if (local as usize) < self.all.len() {
            self.all[local as usize] = Mark::Ready;
            self.ready.insert(local);
        }
    }

    /// The local is used up, if it is there.
    #[tactic(auto, using(std::proofs::lemmas::List::set_past, crate::proofs::ReadyLaws::fewer_ready))]
    pub(crate) fn set_spent(&mut self, local: u32)
        ensures { self.new ≡ slice_set self.old local Mark.Spent }
    {
        if (local as usize) < self.all.len() {
            self.all[local as usize] = Mark::Spent;
            self.ready.remove(local);
        }
    }

    /// Locals that are ready: all of them that are below 256.
    pub(crate) fn ready(&self) -> LocalSet
        ensures { AreReady self.now result.words }
    {
        self.ready
    }
}
