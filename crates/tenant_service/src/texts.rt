//! The lines of replies, and of what is free at the end.
ghost use Rattle.std.specs.Prelude.{◌≡◌, ◌++◌, codes, decimal, OnOk};
ghost use Rattle.run_reports.specs.Report.{job_cause_text, told_text};
ghost use Rattle.run_reports.specs.Told.{JobLine as Line};
ghost use Rattle.tenant_service.specs.Rooms.{Reply, Refuses, IsOver};
ghost use Rattle.tenant_service.specs.Steps.{StartedIs, FinishedIs, CameTo};
ghost use Rattle.tenant_service.specs.Texts.{named, reply_text};

use crate::holding::{Came, Started};
use licence::Licence;
use run_reports::{JobCause, JobLine, push_cause, push_line, push_number, push_text};
use std::alloc::{AllocError, Global};

// A word, the tenant's name, and the job's.
#[tactic(auto, using(crate::proofs::Joining::three_named))]
fn push_named(out: &mut Vec<u8>, word: &[u8], tenant: &[u8], name: &[u8]) -> Result<(), AllocError>
    ensures { OnOk result (out.new.items ≡ out.old.items ++ named word.now tenant.now name.now) }
{
    out.extend_from_slice(word)?;
    push_text(out, b" ", tenant)?;
    push_text(out, b" ", name)
}

// The same as a line.
#[tactic(auto, using(crate::proofs::Joining::two))]
fn push_only(out: &mut Vec<u8>, word: &[u8], tenant: &[u8], name: &[u8]) -> Result<(), AllocError>
    ensures { OnOk result (out.new.items ≡ out.old.items ++ (named word.now tenant.now name.now ++ codes "\n")) }
{
    push_named(out, word, tenant, name)?;
    out.extend_from_slice(b"\n")
}

// The same with two numbers behind labels.
#[tactic(auto, using(crate::proofs::Joining::four))]
fn push_two(
    out: &mut Vec<u8>,
    word: &[u8],
    tenant: &[u8],
    name: &[u8],
    label: &[u8],
    number: u64,
    other_label: &[u8],
    other: u64,
) -> Result<(), AllocError>
    ensures { OnOk result (out.new.items ≡ out.old.items ++
        (named word.now tenant.now name.now ++ (label.now ++ decimal number) ++ (other_label.now ++ decimal other) ++ codes "\n")) }
{
    push_named(out, word, tenant, name)?;
    push_number(out, label, number)?;
    push_number(out, other_label, other)?;
    out.extend_from_slice(b"\n")
}

// A cause behind a space.
#[tactic(auto, using(crate::proofs::Joining::two))]
fn push_spaced(out: &mut Vec<u8>, cause: JobCause) -> Result<(), AllocError>
    ensures { OnOk result (out.new.items ≡ out.old.items ++ (codes " " ++ job_cause_text cause)) }
{
    out.extend_from_slice(b" ")?;
    push_cause(out, cause)
}

// A job that is refused, and why.
#[tactic(auto, using(crate::proofs::Joining::three))]
fn push_refused(
    out: &mut Vec<u8>,
    tenant: &[u8],
    name: &[u8],
    cause: JobCause,
) -> Result<(), AllocError>
    ensures { OnOk result (out.new.items ≡ out.old.items ++ reply_text tenant.now (Refuses name.now cause)) }
{
    push_named(out, b"refused", tenant, name)?;
    push_spaced(out, cause)?;
    out.extend_from_slice(b"\n")
}

// A job with which the tenant would hold more than its budget.
#[tactic(auto, using(crate::proofs::Joining::five))]
fn push_over(
    out: &mut Vec<u8>,
    tenant: &[u8],
    name: &[u8],
    held: u64,
    size: u64,
    budget: u32,
) -> Result<(), AllocError>
    ensures { OnOk result (out.new.items ≡ out.old.items ++ reply_text tenant.now (IsOver name.now held size budget)) }
{
    push_named(out, b"over", tenant, name)?;
    push_number(out, b" held ", held)?;
    push_number(out, b" size ", size)?;
    push_number(out, b" budget ", budget as u64)?;
    out.extend_from_slice(b"\n")
}

/// Writes the reply to a start at the end. `AllocError` where memory runs out.
pub(crate) fn push_started(
    out: &mut Vec<u8>,
    tenant: &[u8],
    name: &[u8],
    told: &Started,
) -> Result<(), AllocError>
    ensures { (reply : Reply) → StartedIs name.now told.now reply → OnOk result (out.new.items ≡ out.old.items ++ reply_text tenant.now reply) }
{
    match *told {
        Started::Held => push_only(out, b"held", tenant, name),
        Started::Refused { cause } => push_refused(out, tenant, name, cause),
        Started::Over { held, size, budget } => push_over(out, tenant, name, held, size, budget),
        Started::Full { need, largest } => push_two(
            out,
            b"full",
            tenant,
            name,
            b" need ",
            need as u64,
            b" largest ",
            largest as u64,
        ),
        Started::Granted { first, size } => push_two(
            out,
            b"started",
            tenant,
            name,
            b" first ",
            first as u64,
            b" size ",
            size,
        ),
    }
}

// What a run came to.
fn push_came(
    alloc: Global,
    out: &mut Vec<u8>,
    room: &mut Vec<u8>,
    licences: &[Licence],
    came: &Came,
) -> Result<(), AllocError>
    ensures { (line : Line) → CameTo licences.now came.now line → OnOk result (out.new.items ≡ out.old.items ++ told_text line) }
{
    let line = JobLine::Ended {
        ending: &came.ending,
        fuel: came.fuel,
        bound: came.bound,
        licence: came.licence,
    };
    push_line(alloc, out, room, licences, &line)?;
    Ok(())
}

// The reply to the finish of a job that was held.
#[tactic(auto, using(crate::proofs::Joining::three))]
fn push_ended(
    alloc: Global,
    out: &mut Vec<u8>,
    room: &mut Vec<u8>,
    licences: &[Licence],
    tenant: &[u8],
    name: &[u8],
    came: &Came,
) -> Result<(), AllocError>
    ensures { (line : Line) → CameTo licences.now came.now line
        → OnOk result (out.new.items ≡ out.old.items ++ (named (codes "finished") tenant.now name.now ++ told_text line ++ codes "\n")) }
{
    push_named(out, b"finished", tenant, name)?;
    push_came(alloc, out, room, licences, came)?;
    out.extend_from_slice(b"\n")
}

/// Writes the reply to a finish at the end. A value has the types of the licence of its run. `room` is memory that one
/// line leaves to the next. `AllocError` where memory runs out.
#[tactic(auto, using(crate::proofs::Telling::finished_text))]
pub(crate) fn push_finished(
    alloc: Global,
    out: &mut Vec<u8>,
    room: &mut Vec<u8>,
    licences: &[Licence],
    tenant: &[u8],
    name: &[u8],
    told: &Option<Came>,
) -> Result<(), AllocError>
    ensures { (reply : Reply) → FinishedIs licences.now name.now told.now reply
        → OnOk result (out.new.items ≡ out.old.items ++ reply_text tenant.now reply) }
{
    match told {
        None => push_only(out, b"absent", tenant, name),
        Some(came) => push_ended(alloc, out, room, licences, tenant, name, came),
    }
}

/// Writes the last line of the tenant of this name at the end, with what is free of its budget. `AllocError` where
/// memory runs out.
#[tactic(auto, using(crate::proofs::Joining::three))]
pub(crate) fn push_end_of(out: &mut Vec<u8>, name: &[u8], free: u64) -> Result<(), AllocError>
    ensures { OnOk result (out.new.items ≡ out.old.items ++ ((codes "end tenant " ++ name.now) ++ (codes " free " ++ decimal free) ++ codes "\n")) }
{
    push_text(out, b"end tenant ", name)?;
    push_number(out, b" free ", free)?;
    out.extend_from_slice(b"\n")
}
