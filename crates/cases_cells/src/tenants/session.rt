//! A desk of several tenants together with the leases that it gave.
ghost use Rattle.std.specs.Prelude.{◌≡◌, ◌<◌, length, sum, suc, IfErr, IfNone, IfSome, OnSome, vec_capacity};
ghost use Rattle.cell_span.specs.Range.{IsWhole};
ghost use Rattle.hole_list.specs.Holes.{run_of};
ghost use Rattle.tenant_desk.specs.Desk.{AreBudgets, IsHeld, IsGiven};
ghost use Rattle.cases_cells.specs.Tenanted.{AllOut, AreCounts, WasAmong, IsLike};

use cell_span::{Cell, Span};
use std::alloc::{AllocError, Global};
use std::marker::Model;
use tenant_desk::laws::law_of_leases;
use tenant_desk::{Ask, DeskRefused, TenantDesk, TenantLease};

/// A desk, how many leases of each tenant are out, and these leases.
pub(crate) struct Session {
    desk: TenantDesk,
    most: u32,
    outs: Vec<u32>,
    leases: Vec<TenantLease>,
}

impl Model for Session {
    ghost use Rattle.std.specs.Prelude.{◌≡◌};
    ghost use Rattle.tenant_desk.specs.Desk.{Tenants};
    ghost use Rattle.cases_cells.specs.Tenanted.{AllOut};

    ghost Value = { Tenants };

    ghost view = { λ s. s.desk };

    ghost invariant = { λ s. AllOut s.leases.items s.desk s.outs.items × (s.desk.most ≡ s.most) };
}

/// What comes of asking for cells.
pub(crate) enum Asked {
    /// The run begins here in the tenant's piece.
    Granted { first: u32, size: u32 },
    /// The tenant would hold more than its budget.
    Over { held: u64, size: u64, budget: u32 },
    /// No hole of its piece has so many cells.
    Full { need: u32, largest: u32 },
    /// There is no such tenant, no cell is asked for, or as many of its leases are out as may be.
    Cant,
}

// The place of the lease of this tenant that begins here in its piece.
fn find(leases: &[TenantLease], tenant: u32, first: u32) -> Option<usize>
    ensures { IfSome result (λ at. at < length leases.now) }
{
    for at in 0..leases.len() {
        let lease = &leases[at];
        if lease.tenant() == tenant && lease.first() == first {
            return Some(at);
        }
    }
    None
}

// Takes the lease of this tenant that begins here in its piece.
#[tactic(auto, using(crate::proofs::Leasing::among))]
fn take(leases: &mut Vec<TenantLease>, tenant: u32, first: u32) -> Option<TenantLease>
    ensures some { IfSome result (λ l. WasAmong leases.old.items leases.new.items l) }
    ensures none { IfNone result (leases.new.items ≡ leases.old.items) }
    ensures room { OnSome result (length leases.new.items < vec_capacity leases.new) }
{
    match find(leases, tenant, first) {
        Some(at) => Some(leases.remove(at)),
        None => None,
    }
}

// Takes a lease back, of whose tenant one less is out then.
fn give_back(desk: &mut TenantDesk, outs: &mut Vec<u32>, lease: TenantLease)
    requires held { IsHeld desk.old lease }
    requires counts { AreCounts desk.old outs.old.items }
    ensures given { IsGiven desk.old desk.new lease }
    ensures counts { AreCounts desk.new outs.new.items }
    ensures all { suc (sum outs.new.items) ≡ sum outs.old.items }
{
    let tenant = lease.tenant() as usize;
    outs[tenant] -= 1;
    desk.give(lease);
}

// Writes a tag into a cell of a run; false where it has no such cell.
fn write_tag(span: &mut Span, at: u32, tag: u32) -> bool
    ensures run { run_of span.new ≡ run_of span.old }
    ensures arena { span.new.arena ≡ span.old.arena }
{
    if at >= span.len() {
        return false;
    }
    let words = span.get(at).words;
    span.set(at, Cell { tag, words });
    true
}

// Writes a tag into a cell of a lease; false where it has no such cell.
fn mark(lease: TenantLease, at: u32, tag: u32) -> (TenantLease, bool)
    ensures { IsLike lease result.0 }
{
    let (mut span, claim) = lease.open();
    let written = write_tag(&mut span, at, tag);
    (claim.close(span), written)
}

impl Session {
    /// A new desk of a whole arena. Where memory runs out, the arena comes back.
    pub(crate) fn open(
        alloc: Global,
        span: Span,
        budgets: Vec<u32>,
        most: u32,
    ) -> Result<Session, DeskRefused>
        requires whole { IsWhole span }
        requires budgets { AreBudgets (length span.cells) budgets.items }
        ensures { IfErr result (λ refused. refused.span ≡ span) }
    {
        let Ok(outs) = vec![in alloc; 0u32; budgets.len()] else {
            return Err(DeskRefused { span });
        };
        match TenantDesk::new(alloc, span, budgets, most) {
            Ok(desk) => Ok(Session {
                desk,
                most,
                outs,
                leases: Vec::new(alloc),
            }),
            Err(refused) => Err(refused),
        }
    }

    /// Asks for so many cells for a tenant. `AllocError` where memory for one more lease runs out.
    pub(crate) fn ask(&mut self, tenant: u32, size: u64) -> Result<Asked, AllocError> {
        let at = tenant as usize;
        if at >= self.outs.len() || size < 1 || self.outs[at] >= self.most {
            return Ok(Asked::Cant);
        }
        self.leases.reserve(1)?;
        law_of_leases();
        self.desk.kept();
        match self.desk.ask(tenant, size) {
            Ask::Granted(lease) => {
                self.desk.kept();
                let asked = Asked::Granted {
                    first: lease.first(),
                    size: lease.span().len(),
                };
                self.outs[at] += 1;
                self.leases.push_reserved(lease);
                Ok(asked)
            }
            Ask::Over { held, size, budget } => Ok(Asked::Over { held, size, budget }),
            Ask::Full { need, largest } => Ok(Asked::Full { need, largest }),
        }
    }

    /// Writes a tag into a cell of a tenant's lease. False where there is no such cell.
    pub(crate) fn mark(&mut self, tenant: u32, first: u32, cell: u32, tag: u32) -> bool {
        match take(&mut self.leases, tenant, first) {
            Some(lease) => {
                let (lease, written) = mark(lease, cell, tag);
                self.leases.push_reserved(lease);
                written
            }
            None => false,
        }
    }

    /// The tag of a cell of a tenant's lease, where there is such a cell.
    pub(crate) fn tag(&self, tenant: u32, first: u32, cell: u32) -> Option<u32> {
        let at = find(&self.leases, tenant, first)?;
        let span = self.leases[at].span();
        if cell < span.len() {
            Some(span.get(cell).tag)
        } else {
            None
        }
    }

    /// Gives a tenant's lease back. False where there is none that begins here.
    pub(crate) fn give(&mut self, tenant: u32, first: u32) -> bool {
        match take(&mut self.leases, tenant, first) {
            Some(lease) => {
                law_of_leases();
                give_back(&mut self.desk, &mut self.outs, lease);
                true
            }
            None => false,
        }
    }

    /// How many cells a tenant holds, where there is such a tenant.
    pub(crate) fn held(&self, tenant: u32) -> Option<u64> {
        if tenant < self.desk.tenants() {
            Some(self.desk.held(tenant))
        } else {
            None
        }
    }

    /// Whether a lease is out.
    pub(crate) fn is_any_out(&self) -> bool {
        !self.leases.is_empty()
    }

    /// Ends the desk; what is out goes back before.
    pub(crate) fn finish(self) -> Span
        ensures { IsWhole result }
    {
        let Session {
            mut desk,
            most: _,
            mut outs,
            mut leases,
        } = self;
        law_of_leases();
        'leases: while let Some(lease) = leases.pop() {
            give_back(&mut desk, &mut outs, lease);
        }
        leases.destroy_empty();
        desk.finish()
    }
}
