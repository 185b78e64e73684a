ghost use Rattle.std.specs.Prelude.{◌≡◌, length, slice_get, Some};
ghost use Rattle.cell_span.specs.Range.{IsRange};
ghost use Rattle.lease_desk.specs.Lease.{LeaseView, ClaimView, lease, claim_of};

use crate::name::DeskName;
use cell_span::{Arena, Span};
use std::marker::{Model, PhantomData};

/// A run of cells that a desk gave to a job. It owns the cells. Its type keeps that they are of the desk's arena, and
/// as many as the job's size.
pub struct Lease<N: DeskName> {
    job: u32,
    span: Span,
    of: PhantomData<N>,
}

impl<N: DeskName> Model for Lease<N> {
    ghost use Rattle.std.specs.Prelude.{length};
    ghost use Rattle.lease_desk.specs.Kept.{IsLease};
    ghost use Rattle.lease_desk.specs.Lease.{LeaseView};

    ghost Value = { LeaseView };

    ghost view = { λ l. record { job = l.job; range = l.span } };

    ghost invariant = { λ l. IsLease N.arena N.sizes l.job l.span.arena (length l.span.cells) };
}

/// What is left of a lease while its span is used: the job, and which span makes it whole again.
pub struct Claim<N: DeskName> {
    job: u32,
    first: u32,
    size: u32,
    arena: Arena,
    of: PhantomData<N>,
}

impl<N: DeskName> Model for Claim<N> {
    ghost use Rattle.cell_span.specs.Arenas.{arena_of};
    ghost use Rattle.lease_desk.specs.Kept.{IsLease};
    ghost use Rattle.lease_desk.specs.Lease.{ClaimView};

    ghost Value = { ClaimView };

    ghost view = { λ c. record { job = c.job; first = c.first; size = c.size; arena = arena_of c.arena } };

    ghost invariant = { λ c. IsLease N.arena N.sizes c.job (arena_of c.arena) c.size };
}

impl<N: DeskName> Lease<N> {
    /// The lease of a span to a job, for the desk alone.
    pub(crate) fn new(job: u32, span: Span) -> Lease<N>
        requires arena { span.arena ≡ N.arena }
        requires size { slice_get N.sizes job ≡ Some (length span.cells) }
        ensures { result ≡ lease job span }
    {
        Lease {
            job,
            span,
            of: PhantomData,
        }
    }

    /// What each lease keeps. It does nothing.
    pub fn kept(&self)
        // It is of the desk's arena.
        ensures arena { self.now.range.arena ≡ N.arena }
        // It has as many cells as its job's size.
        ensures size { slice_get N.sizes self.now.job ≡ Some (length self.now.range.cells) }
    {
        let _ = &self.span;
    }

    /// The number of the job.
    pub fn job(&self) -> u32
        ensures { result ≡ self.now.job }
    {
        self.job
    }

    /// The run of cells.
    pub fn span(&self) -> &Span
        ensures { result.now ≡ self.now.range }
    {
        &self.span
    }

    /// The run of cells and the claim that makes it a lease again.
    pub fn open(self) -> (Span, Claim<N>)
        // The run is the lease's.
        ensures span { result.0 ≡ self.range }
        // The claim has the lease's job, and where its run begins and ends.
        ensures claim { result.1 ≡ claim_of self }
    {
        let Lease { job, span, of: _ } = self;
        let claim = Claim {
            job,
            first: span.first(),
            size: span.len(),
            arena: span.arena(),
            of: PhantomData,
        };
        (span, claim)
    }

    /// The job and the run of cells, for the desk alone.
    pub(crate) fn parts(self) -> (u32, Span)
        ensures { self ≡ lease result.0 result.1 }
    {
        let Lease { job, span, of: _ } = self;
        (job, span)
    }
}

impl<N: DeskName> Claim<N> {
    /// The lease again, of a span with the first index, the size and the arena that were claimed; its cells may be
    /// others.
    pub fn close(self, span: Span) -> Lease<N>
        requires first { span.first ≡ self.first }
        requires size { length span.cells ≡ self.size }
        requires arena { span.arena ≡ self.arena }
        ensures { result ≡ lease self.job span }
    {
        let Claim {
            job,
            first: _,
            size: _,
            arena: _,
            of: _,
        } = self;
        Lease {
            job,
            span,
            of: PhantomData,
        }
    }
}
