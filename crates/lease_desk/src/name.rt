use std::marker::Brand;

/// Which desk it is. What is behind a lock is known by its type alone, so a desk, its leases and all that has to agree
/// with them take its name as a parameter. The call that makes a desk picks it, by passing [`Brand`].
pub trait DeskName {
    ghost use Rattle.std.specs.Prelude.{ℕ, List};
    ghost use Rattle.cell_span.specs.Arenas.{Arena};

    // the arena that is leased
    ghost arena: { Arena };

    // the number of cells of each job's lease
    ghost sizes: { List ℕ };
}

/// What a call passes that picks the desk. These members stand where none are picked.
impl DeskName for Brand {
    ghost use Rattle.std.specs.Prelude.{[]};
    ghost use denote.RawPtr.{null_ptr};

    ghost arena = { record { at = null_ptr; cells = 0 } };

    ghost sizes = { [] };
}
