//! Laws on places of code.
ghost use Rattle.std.specs.Prelude.{◌≡◌, ℕ, slice_get, Some};
ghost use Rattle.grail_code.specs.Code.{Code, Func};
ghost use Rattle.grail_code.specs.WellFormed.{IsWellFormed};
ghost use Rattle.frame_locals.specs.Places.{ready_at, waits_at};
ghost use Rattle.frame_locals.specs.Lending.{LendsWhere, lends_at};

/// In well-formed code a frame has a lent local that is ready exactly where a parameter of its block is lent, whatever
/// its place in the block. So a table for each block tells which frames lend.
pub fn law_of_lending()
    // Where the frame runs.
    ensures runs { (p : Code) (func block place : ℕ) (f : Func) → IsWellFormed p → slice_get p.funcs func ≡ Some f
        → LendsWhere p f (ready_at p func block place) (lends_at p func block) }
    // Where it waits for a call, whose operands are used.
    ensures waits { (p : Code) (func block place : ℕ) (f : Func) → IsWellFormed p → slice_get p.funcs func ≡ Some f
        → LendsWhere p f (waits_at p func block place) (lends_at p func block) }
{}
