ghost use Rattle.std.specs.Prelude.{◌≡◌};
ghost use Rattle.tenant_script.specs.Parts.{refused_of, fault_of};

use job_script::LineStop;
use text_lines::Refused;
use thiserror::Error;

/// What is wrong with a text that is no tenant script's. Lines are counted from 1.
#[derive(Clone, Copy, Debug, PartialEq, Eq, Error)]
pub enum TenantFault {
    /// This line is the first that has no form; or the text ends in it, or before it where it is needed.
    #[error("line {line}")]
    Line { line: u64 },
    /// This line is the first that has a form but a number outside its limits, or that is one too many of its sort. So
    /// is the line of a tenant with whose cells the budgets pass the arena.
    #[error("count line {line}")]
    Count { line: u64 },
    /// This line is the first that names a tenant or a program as an earlier one of the same sort.
    #[error("repeat line {line}")]
    Repeat { line: u64 },
    /// This line is the first that is a start or a finish of none of the tenants.
    #[error("tenant line {line}")]
    Tenant { line: u64 },
}

/// What is wrong with a line.
#[derive(Clone, Copy)]
pub(crate) enum Kind {
    /// It has no form.
    Line,
    /// It has a form, but a number outside its limits, or it is one too many.
    Count,
    /// A name stood before.
    Repeat,
    /// Its tenant isn't there.
    Tenant,
}

/// Why a line isn't taken.
pub(crate) fn refused(stop: LineStop) -> Refused<Kind>
    ensures { result ≡ refused_of stop }
{
    match stop {
        LineStop::Line => Refused::Kind(Kind::Line),
        LineStop::Count => Refused::Kind(Kind::Count),
        LineStop::Repeat => Refused::Kind(Kind::Repeat),
        LineStop::Memory => Refused::Memory,
    }
}

/// The fault of a kind at this line.
pub(crate) fn fault_at(kind: Kind, line: u64) -> TenantFault
    ensures { result ≡ fault_of kind line }
{
    match kind {
        Kind::Line => TenantFault::Line { line },
        Kind::Count => TenantFault::Count { line },
        Kind::Repeat => TenantFault::Repeat { line },
        Kind::Tenant => TenantFault::Tenant { line },
    }
}
