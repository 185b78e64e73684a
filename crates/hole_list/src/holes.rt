ghost use Rattle.std.specs.Prelude.{◌≡◌, ◌<◌, ◌≤◌, [], ◌∷◌, length, map, Some, None, MatchResult, MatchOption};
ghost use Rattle.cell_span.specs.Arenas.{arena_of};
ghost use Rattle.cell_span.specs.Range.{IsRange};
ghost use Rattle.hole_list.specs.Placing.{largest, total, IsOut};
ghost use Rattle.hole_list.specs.Holes.{AreHoles, run_of, new_holes, TookFrom, TookNone, with_given};

use super::merge::{merge, take_first};
use super::out::{add_run, count, remove_run};
use super::run::Run;
use cell_span::{Arena, Span};
use std::alloc::Global;
use std::marker::Model;

/// The holes of a run of an arena, in ascending order, and where the runs lie that were taken out of it. That run is
/// their base.
///
/// Each cell of the base is in one hole or in one run that is out.
pub struct Holes {
    arena: Arena,
    base: Run,
    most_out: u32,
    free: u32,
    spans: Vec<Span>,
    runs: Vec<Run>,
}

impl Model for Holes {
    ghost use Rattle.hole_list.specs.Holes.{Holed};
    ghost use Rattle.hole_list.specs.Inside.{holed_of, IsKept};

    ghost Value = { Holed };

    ghost view = { holed_of };

    ghost invariant = { IsKept };
}

/// The memory for holes ran out.
pub struct HolesRefused {
    /// The span, as it was.
    pub span: Span,
}

impl Holes {
    /// One hole that is all of a span, of which at most so many runs will be out at a time. All room is taken here: for
    /// one hole more than runs that may be out, and for these runs. Where memory runs out, the span comes back.
    #[tactic(auto, using(crate::proofs::Holding::new_holds, crate::proofs::Holding::new_free))]
    pub fn new(alloc: Global, span: Span, most_out: u32) -> Result<Holes, HolesRefused>
        ensures { MatchResult result (λ holes. holes ≡ new_holes span most_out) (λ refused. refused.span ≡ span) }
    {
        let Ok(runs) = Vec::with_capacity(alloc, most_out as usize) else {
            return Err(HolesRefused { span });
        };
        let Ok(mut spans) = Vec::with_capacity(alloc, most_out as usize + 1) else {
            return Err(HolesRefused { span });
        };
        let arena = span.arena();
        let base = run_at(&span);
        spans.push_reserved(span);
        Ok(Holes {
            arena,
            base,
            most_out,
            free: base.size,
            spans,
            runs,
        })
    }

    /// What holes keep: they lie apart in ascending order, and each cell of their base is in one hole or in one run
    /// that is out. It does nothing; its clause is what whoever has holes can use.
    pub fn kept(&self)
        ensures { AreHoles self.now }
    {
        let _ = &self.spans;
    }

    /// Which arena they are of.
    pub fn arena(&self) -> Arena
        ensures { arena_of result ≡ self.now.arena }
    {
        self.arena
    }

    /// Where their base lies: the span that they were made of.
    pub fn base(&self) -> Run
        ensures { result ≡ self.now.base }
    {
        self.base
    }

    /// How many runs are out.
    pub fn out(&self) -> u32
        // It is the number of runs that are out.
        ensures count { result ≡ length self.now.out }
        // There are at most as many as room was made for.
        ensures few { result ≤ self.now.most_out }
    {
        count(&self.runs, self.most_out)
    }

    /// The number of cells of all holes.
    pub fn free(&self) -> u64
        ensures { result ≡ total (map run_of self.now.holes) }
    {
        self.free as u64
    }

    /// The number of cells of the greatest hole, and 0 where there is none.
    pub fn largest(&self) -> u32
        ensures { result ≡ largest (map run_of self.now.holes) }
    {
        greatest(&self.spans)
    }

    /// Takes so many cells: the front of the first hole that has them. `None` exactly where no hole has so many; all
    /// stays then. It takes no memory.
    pub fn take(&mut self, size: u32) -> Option<Span>
        requires some { 1 ≤ size }
        requires few { length self.old.out < self.old.most_out }
        ensures { MatchOption result (TookNone self.old self.new size) (TookFrom self.old self.new size) }
    {
        match take_first(&mut self.spans, size) {
            Some(span) => {
                let run = run_at(&span);
                add_run(&mut self.runs, run);
                self.free -= size;
                Some(span)
            }
            None => None,
        }
    }

    /// Gives a range back whose run is out: it is a hole again, as one with the holes that it meets. It takes no
    /// memory.
    pub fn give(&mut self, span: Span)
        requires arena { span.arena ≡ self.old.arena }
        requires out { IsOut self.old.out (run_of span) }
        ensures { self.new ≡ with_given self.old span }
    {
        let run = run_at(&span);
        merge(&mut self.spans, span);
        remove_run(&mut self.runs, run);
        self.free += run.size;
    }

    /// The span that they were made of, where no run is out: it begins at the same index, with the same size, in the
    /// same arena. What its cells hold may have changed.
    pub fn finish(self) -> Span
        requires { self.out ≡ [] }
        // It lies where the base does.
        ensures base { run_of result ≡ self.base }
        // It is the one hole that is left.
        ensures holes { self.holes ≡ result ∷ [] }
        // It is of the same arena.
        ensures arena { result.arena ≡ self.arena }
    {
        let Holes {
            arena: _,
            base: _,
            most_out: _,
            free: _,
            mut spans,
            runs: _,
        } = self;
        match spans.pop() {
            Some(span) => {
                spans.destroy_empty();
                span
            }
            None => unreachable!(),
        }
    }
}

// The number of cells of the greatest span.
fn greatest(spans: &[Span]) -> u32
    ensures { result ≡ largest (map run_of spans.now) }
{
    let mut most = 0;
    for span in spans {
        most = most.max(span.len());
    }
    most
}

// Where a span lies.
fn run_at(span: &Span) -> Run
    ensures run { result ≡ run_of span.now }
    ensures range { IsRange span.now }
{
    Run {
        first: span.first(),
        size: span.len(),
    }
}
