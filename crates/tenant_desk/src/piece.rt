//! What one tenant is answered from its piece.
ghost use Rattle.std.specs.Prelude.{◌≡◌, ◌<◌, ◌≤◌, length};
ghost use Rattle.hole_list.specs.Placing.{IsOut};
ghost use Rattle.hole_list.specs.Holes.{run_of, with_given};
ghost use Rattle.tenant_desk.specs.Desk.{held};
ghost use Rattle.tenant_desk.specs.Joining.{PieceIs, Stays};

use crate::ask::Ask;
use crate::lease::TenantLease;
use cell_span::Span;
use hole_list::Holes;

/// Takes so many cells for the tenant, where with them it holds at most its budget and a hole has so many.
pub fn ask_piece(piece: &mut Holes, tenant: u32, size: u64) -> Ask
    requires some { 1 ≤ size }
    requires few { length piece.old.out < piece.old.most_out }
    // It is answered by the piece's holes and by what is out.
    ensures answer { PieceIs piece.old piece.new tenant size result }
    // The piece is still over the same run.
    ensures stays { Stays piece.old piece.new }
{
    piece.kept();
    let base = piece.base();
    let free = piece.free();
    if size > free {
        return Ask::Over {
            held: base.size as u64 - free,
            size,
            budget: base.size,
        };
    }
    let need = size as u32;
    match piece.take(need) {
        Some(span) => {
            piece.kept();
            Ask::Granted(TenantLease::new(tenant, base.first, span))
        }
        None => {
            let largest = piece.largest();
            Ask::Full { need, largest }
        }
    }
}

/// Takes a range back whose run is out.
pub fn give_piece(piece: &mut Holes, span: Span)
    requires arena { span.arena ≡ piece.old.arena }
    requires out { IsOut piece.old.out (run_of span) }
    // The range is back among the holes.
    ensures given { piece.new ≡ with_given piece.old span }
    // The piece is still over the same run.
    ensures stays { Stays piece.old piece.new }
{
    piece.give(span);
    piece.kept();
}

/// The number of cells of all runs that are out.
pub fn held_of(piece: &Holes) -> u64
    ensures { result ≡ held piece.now }
{
    piece.kept();
    piece.base().size as u64 - piece.free()
}
