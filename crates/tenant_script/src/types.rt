use job_script::Language;

/// A tenant, and how many cells it may hold, at least 1.
#[derive(Clone, Copy)]
pub struct Tenant<'a> {
    pub name: &'a [u8],
    pub cells: u32,
}

/// A program, or the start or the end of a tenant's job, in the order of the script. Names and texts are parts of the
/// script's text.
#[derive(Clone, Copy)]
pub enum TenantEntry<'a> {
    /// A program's text in its language, its lines with their line feeds.
    Program {
        name: &'a [u8],
        language: Language,
        text: &'a [u8],
    },
    /// A call of the entry of a program with so much fuel, from 1 to 2^40, as a job of this tenant. The program need
    /// not be there. The arguments are as they stand in the line, and none where it has none.
    Start {
        tenant: &'a [u8],
        name: &'a [u8],
        program: &'a [u8],
        entry: &'a [u8],
        fuel: u64,
        args: &'a [u8],
    },
    /// The end of the tenant's job of this name, which need not be there.
    Finish {
        tenant: &'a [u8],
        name: &'a [u8],
    },
}

/// A tenant script: the cells of its arena, from 1 to 4194304, and from 1 to 64 tenants with budgets that it has
/// together. Then come its programs, at most 64, and at most 4096 starts and 4096 finishes.
#[derive(Drop)]
pub struct TenantScript<'a> {
    pub arena: u32,
    pub tenants: Vec<Tenant<'a>>,
    pub items: Vec<TenantEntry<'a>>,
}
