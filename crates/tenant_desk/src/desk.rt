ghost use Rattle.std.specs.Prelude.{◌≡◌, ◌<◌, ◌≤◌, length, slice_get, Some, MatchResult};
ghost use Rattle.std.specs.Option.{option_map};
ghost use Rattle.cell_span.specs.Range.{IsWhole};
ghost use Rattle.tenant_desk.specs.Leases.{LeaseView};
ghost use Rattle.tenant_desk.specs.Desk.{Tenants, new_tenants, AreBudgets, HasRoom, IsHeld, IsGiven, NoneOut, held, all_cells};
ghost use Rattle.tenant_desk.specs.Kept.{AreTenants};
ghost use Rattle.tenant_desk.specs.Answers.{AskIs};

use crate::ask::Ask;
use crate::cut::{cut_piece, join_rest};
use crate::lease::TenantLease;
use crate::piece::{ask_piece, give_piece, held_of};
use cell_span::{Arena, Span};
use hole_list::{Holes, HolesRefused};
use std::alloc::Global;
use std::marker::Model;

/// Gives several tenants runs of one arena, each within a budget of its own.
///
/// A tenant's piece is a run of the arena of as many cells as its budget. The pieces lie one behind the other, in the
/// tenants' order. A tenant is given the front of the first hole of its piece that has cells enough (first fit). So
/// what it is given depends on its own leases alone. All room is taken at the start.
pub struct TenantDesk {
    arena: Arena,
    most: u32,
    pieces: Vec<Holes>,
    rest: Option<Span>,
}

impl Model for TenantDesk {
    ghost use Rattle.std.specs.Option.{option_to_list};
    ghost use Rattle.cell_span.specs.Arenas.{arena_of};
    ghost use Rattle.tenant_desk.specs.Desk.{Tenants};
    ghost use Rattle.tenant_desk.specs.Kept.{AreTenants};
    ghost use Rattle.tenant_desk.specs.Joining.{tenants};

    ghost Value = { Tenants };

    ghost view = { λ d. tenants (arena_of d.arena) d.most d.pieces.items (option_to_list d.rest) };

    ghost invariant = { λ d. AreTenants (tenants (arena_of d.arena) d.most d.pieces.items (option_to_list d.rest)) };
}

/// The memory for a desk ran out.
pub struct DeskRefused {
    /// The arena, as it was.
    pub span: Span,
}

impl TenantDesk {
    /// A desk of a whole arena for 1 to 64 tenants, the first of which is number 0. The budgets are numbers of cells,
    /// each at least 1, which together are at most the arena's. At most `most` leases of one tenant will be out at a
    /// time. All room is taken here. Where memory runs out, the arena comes back.
    pub fn new(
        alloc: Global,
        span: Span,
        budgets: Vec<u32>,
        most: u32,
    ) -> Result<TenantDesk, DeskRefused>
        // The span is a whole arena.
        requires whole { IsWhole span }
        // There are from 1 to 64 budgets of at least one cell each, which together have at most the arena's cells.
        requires budgets { AreBudgets (length span.cells) budgets.items }
        // Each tenant has its piece, and the rest is kept; or the arena is as it was.
        ensures { MatchResult result (λ desk. desk ≡ new_tenants span budgets.items most) (λ refused. refused.span ≡ span) }
    {
        span.limits();
        let arena = span.arena();
        let Ok(mut pieces) = Vec::with_capacity(alloc, budgets.len()) else {
            return Err(DeskRefused { span });
        };
        let mut rest = Some(span);
        'cuts: for budget in &budgets {
            let Some(left) = rest else { unreachable!() };
            match cut_piece(alloc, &mut pieces, left, *budget, most) {
                Ok(left) => rest = left,
                Err(HolesRefused { span }) => {
                    let desk = TenantDesk {
                        arena,
                        most,
                        pieces,
                        rest: Some(span),
                    };
                    return Err(DeskRefused {
                        span: desk.finish(),
                    });
                }
            }
        }
        Ok(TenantDesk {
            arena,
            most,
            pieces,
            rest,
        })
    }

    /// What each desk keeps. Its pieces lie one behind the other from the arena's first cell on, and each keeps what
    /// holes keep. What no tenant has is the rest of the arena behind them. It does nothing.
    pub fn kept(&self)
        // Together they are the arena.
        ensures { AreTenants self.now }
    {
        let _ = &self.pieces;
    }

    /// The number of tenants, at most 64.
    pub fn tenants(&self) -> u32
        // It is the number of pieces.
        ensures { result ≡ length self.now.pieces }
    {
        self.pieces.len() as u32
    }

    /// Asks for so many cells for a tenant. `Over` exactly where it would hold more than its budget; else `Full`
    /// exactly where each hole of its piece is too small; both change nothing. It takes no memory.
    pub fn ask(&mut self, tenant: u32, size: u64) -> Ask
        // There is such a tenant.
        requires there { tenant < length self.old.pieces }
        // It asks for at least one cell.
        requires some { 1 ≤ size }
        // Fewer of its leases are out than the desk has room for.
        requires few { HasRoom self.old tenant }
        // Each answer comes exactly where its definition says.
        ensures { AskIs self.old self.new tenant size result }
    {
        let piece = &mut self.pieces[tenant as usize];
        ask_piece(piece, tenant, size)
    }

    /// Takes a lease back whose run is out in the piece of its tenant: its cells are cells of a hole again. It takes no
    /// memory.
    pub fn give(&mut self, lease: TenantLease)
        // Its run is out in the piece of its tenant, and its span is of the desk's arena.
        requires { IsHeld self.old lease }
        // That piece has its range back among its holes, and all else stays.
        ensures { IsGiven self.old self.new lease }
    {
        let (tenant, span) = lease.parts();
        let piece = &mut self.pieces[tenant as usize];
        give_piece(piece, span);
    }

    /// How many cells a tenant holds, from 0 to its budget.
    pub fn held(&self, tenant: u32) -> u64
        // There is such a tenant.
        requires { tenant < length self.now.pieces }
        // It is the number of cells of all runs that are out in the tenant's piece.
        ensures { option_map held (slice_get self.now.pieces tenant) ≡ Some result }
    {
        let piece = &self.pieces[tenant as usize];
        held_of(piece)
    }

    /// Ends a desk with no lease out: the whole arena. It takes no memory.
    pub fn finish(self) -> Span
        // No run is out in any piece.
        requires { NoneOut self.pieces }
        // It is the whole of an arena.
        ensures whole { IsWhole result }
        // It is the desk's arena.
        ensures arena { result.arena ≡ self.arena }
        // Its cells are those of the pieces' holes, and of what no tenant had.
        ensures cells { result.cells ≡ all_cells self }
    {
        let TenantDesk {
            arena: _,
            most: _,
            mut pieces,
            mut rest,
        } = self;
        'joins: while let Some(piece) = pieces.pop() {
            rest = Some(join_rest(piece.finish(), rest));
        }
        pieces.destroy_empty();
        match rest {
            Some(span) => span,
            None => unreachable!(),
        }
    }
}
