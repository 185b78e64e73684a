use crate::lease::TenantLease;

/// What a tenant is answered that asks for so many cells.
pub enum Ask {
    /// The lease of a run with just these cells.
    Granted(TenantLease),
    /// The tenant holds so many cells, and would hold more than its budget with the size that it asked for.
    Over { held: u64, size: u64, budget: u32 },
    /// Its budget has the cells that it needs, but the largest hole of its piece has fewer.
    Full { need: u32, largest: u32 },
}
