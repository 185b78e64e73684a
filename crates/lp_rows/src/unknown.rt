ghost use Rattle.std.specs.Prelude.{◌≡◌};
ghost use Rattle.lp_system.specs.Unknowns.{same};
ghost use Rattle.lp_system.specs.Forms.{cost_of};
ghost use Rattle.lp_rows.specs.Dense.{tick};
ghost use Rattle.lp_rows.specs.Plain.{plain, units_of};

/// Where a value has its units from: functions, blocks, locals and places of lets by their numbers.
#[derive(Clone, Copy, Debug, PartialEq, Eq)]
pub(crate) enum Origin {
    /// A function's parameter.
    Param { func: u32, var: u32 },
    /// What a function gives.
    Outcome { func: u32 },
    /// A parameter of a block after the first.
    BlockVar { func: u32, block: u32, var: u32 },
    /// A build.
    Made { func: u32, block: u32, place: u32 },
}

/// What is unknown of a code before its certificate is found.
#[derive(Clone, Copy, Debug, PartialEq, Eq)]
pub(crate) enum Unknown {
    /// What a function needs besides what its arguments carry.
    Need { func: u32 },
    /// What a function gives back besides what its result carries.
    Back { func: u32 },
    /// What a block after the first needs besides what its parameters carry.
    BlockNeed { func: u32, block: u32 },
    /// The units of a constructor.
    Unit { origin: Origin, con: u32 },
}

/// Whether it's the same unknown.
#[tactic(auto, using(crate::proofs::Same::agree))]
pub(crate) fn is_same(left: &Unknown, right: &Unknown) -> bool
    ensures { result ≡ same (plain left.now) (plain right.now) }
{
    left == right
}

/// The unknown of a value's units of a constructor.
pub(crate) fn unit(origin: Origin, con: u32) -> Unknown
    ensures { plain result ≡ units_of origin con }
{
    Unknown::Unit { origin, con }
}

/// How often an unknown stands in another one.
pub(crate) fn tick(unknown: &Unknown, other: &Unknown) -> i64
    ensures { result ≡ tick (plain unknown.now) (plain other.now) }
{
    if is_same(unknown, other) { 1 } else { 0 }
}

/// What an unknown costs: the needs of functions and what their parameters carry are to be least.
pub(crate) fn cost_of(unknown: &Unknown) -> i64
    ensures { result ≡ cost_of (plain unknown.now) }
{
    match unknown {
        Unknown::Need { .. } => 1,
        Unknown::Unit { origin, .. } => match origin {
            Origin::Param { .. } => 1,
            Origin::Outcome { .. } | Origin::BlockVar { .. } | Origin::Made { .. } => 0,
        },
        Unknown::Back { .. } | Unknown::BlockNeed { .. } => 0,
    }
}
