ghost use Rattle.std.specs.Prelude.{◌≡◌, ◌-◌, ◌≤◌, length};
ghost use Rattle.tenant_desk.specs.Leases.{LeaseView, ClaimView, lease, claim_of};

use cell_span::{Arena, Span};
use std::marker::Model;

/// A run of cells that a desk gave to a tenant. It owns the cells. Its type keeps that it begins at the first cell of
/// the tenant's piece or behind it.
pub struct TenantLease {
    tenant: u32,
    piece: u32,
    span: Span,
}

impl Model for TenantLease {
    ghost use Rattle.std.specs.Prelude.{◌≤◌};
    ghost use Rattle.tenant_desk.specs.Leases.{LeaseView};

    ghost Value = { LeaseView };

    ghost view = { λ l. record { tenant = l.tenant; piece = l.piece; range = l.span } };

    ghost invariant = { λ l. l.piece ≤ l.span.first };
}

/// What is left of a lease while its span is used: the tenant, and which span makes it whole again.
pub struct TenantClaim {
    tenant: u32,
    piece: u32,
    first: u32,
    size: u32,
    arena: Arena,
}

impl Model for TenantClaim {
    ghost use Rattle.std.specs.Prelude.{◌≤◌};
    ghost use Rattle.cell_span.specs.Arenas.{arena_of};
    ghost use Rattle.tenant_desk.specs.Leases.{ClaimView};

    ghost Value = { ClaimView };

    ghost view = { λ c. record { tenant = c.tenant; piece = c.piece; first = c.first; size = c.size; arena = arena_of c.arena } };

    ghost invariant = { λ c. c.piece ≤ c.first };
}

impl TenantLease {
    /// The lease of a span to a tenant whose piece begins at this index, for the desk alone.
    pub(crate) fn new(tenant: u32, piece: u32, span: Span) -> TenantLease
        requires { piece ≤ span.first }
        ensures { result ≡ lease tenant piece span }
    {
        TenantLease {
            tenant,
            piece,
            span,
        }
    }

    /// What each lease keeps: it begins at the first cell of the tenant's piece or behind it. It does nothing.
    pub fn kept(&self)
        // So the index that is counted in the piece is that in the arena less the piece's.
        ensures { self.now.piece ≤ self.now.range.first }
    {
        let _ = &self.span;
    }

    /// The number of the tenant, from 0 on.
    pub fn tenant(&self) -> u32
        // It is the lease's tenant.
        ensures { result ≡ self.now.tenant }
    {
        self.tenant
    }

    /// The index of the run's first cell, counted from the first cell of the tenant's piece.
    pub fn first(&self) -> u32
        // It is the index in the arena less that of the piece.
        ensures { result ≡ self.now.range.first - self.now.piece }
    {
        self.span.first() - self.piece
    }

    /// The run of cells.
    pub fn span(&self) -> &Span
        // It is the lease's run.
        ensures { result.now ≡ self.now.range }
    {
        &self.span
    }

    /// The run of cells and the claim that makes it a lease again.
    pub fn open(self) -> (Span, TenantClaim)
        // The run is the lease's.
        ensures span { result.0 ≡ self.range }
        // The claim has the lease's tenant, and where its run begins and ends.
        ensures claim { result.1 ≡ claim_of self }
    {
        let TenantLease {
            tenant,
            piece,
            span,
        } = self;
        let claim = TenantClaim {
            tenant,
            piece,
            first: span.first(),
            size: span.len(),
            arena: span.arena(),
        };
        (span, claim)
    }

    /// The tenant and the run of cells, for the desk alone.
    pub(crate) fn parts(self) -> (u32, Span)
        ensures { (result.0 ≡ self.tenant) × (result.1 ≡ self.range) }
    {
        let TenantLease {
            tenant,
            piece: _,
            span,
        } = self;
        (tenant, span)
    }
}

impl TenantClaim {
    /// The lease again, of a span with the first index, the size and the arena that were claimed; its cells may be
    /// others.
    pub fn close(self, span: Span) -> TenantLease
        // It begins where the claim says.
        requires first { span.first ≡ self.first }
        // It has as many cells.
        requires size { length span.cells ≡ self.size }
        // It is of the same arena.
        requires arena { span.arena ≡ self.arena }
        // The lease is of the same tenant and the same piece, with this run.
        ensures { result ≡ lease self.tenant self.piece span }
    {
        let TenantClaim {
            tenant,
            piece,
            first: _,
            size: _,
            arena: _,
        } = self;
        TenantLease {
            tenant,
            piece,
            span,
        }
    }
}
