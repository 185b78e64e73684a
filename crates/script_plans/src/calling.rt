//! The call that a job asks for: its licence, its function, its arguments, its bound and its lease, or why it has none.
ghost use Rattle.std.specs.Prelude.{◌≡◌, ◌<◌, ◌≤◌, length, map, slice_get, Some, MatchResult, IfOk};
ghost use Rattle.camelot_values.specs.Value.{parts};
ghost use Rattle.camelot_values.specs.Counts.{size_all};
ghost use Rattle.grail_code.specs.Code.{code_of};
ghost use Rattle.grail_code.specs.Code as plain;
ghost use Rattle.value_text.specs.Grammar.{AreNamed, DistinctNames, IsRead};
ghost use Rattle.stops.specs.Stopping.{FaultIs};
ghost use Rattle.value_text.specs.Answers.{IsFault};
ghost use Rattle.value_text.specs.Inhabited.{Knows};
ghost use Rattle.licence.specs.Licensed.{FitsEntry};
ghost use Rattle.script_plans.specs.Programs.{ProgramText};
ghost use Rattle.script_plans.specs.Rows.{Holds, AreRows, row_of, row_among, row_program};
ghost use Rattle.script_plans.specs.Asked.{IsAsked};
ghost use Rattle.script_plans.specs.Turns.{IsBoundOf, IsOfArgs, IsUsable};

use crate::rows::{Known, Row, find};
use camelot_values::Flat;
use code_gen::laws::law_of_compiler;
use grail_code::Code;
use job_world::Call;
use licence::{Licence, Needs};
use run_reports::JobCause;
use std::alloc::{AllocError, Global};
use stops::Stop;
use value_text::{Inhabited, ValueFault, read_known};

// The arguments of a function, of this text.
fn parse(
    alloc: Global,
    code: &Code,
    inhabited: &Inhabited,
    number: u32,
    text: &[u8],
) -> Result<Vec<Flat>, Stop<ValueFault>>
    requires there { number < length (code_of code.now).funcs }
    requires short { length text.now < 4294967296 }
    requires knows { Knows code.now.types inhabited.now }
    requires named { AreNamed code.now.types }
    requires distinct { DistinctNames code.now.types }
    ensures { (f : plain.Func) → slice_get (code_of code.now).funcs number ≡ Some f
        → MatchResult result (λ args. IsRead code.now.types f.params text.now args.items) (λ stop. FaultIs (IsFault code.now.types f.params text.now) stop) }
{
    let params = &code.funcs[number as usize].params;
    read_known(alloc, text, &code.types, inhabited, params)
}

// The bound and the lease of a call. It is a call itself, so that the walks over the nodes of the arguments carry
// nothing of what reads them.
#[inline(never)]
#[tactic(auto, using(crate::proofs::Coming::bounded_is))]
fn needs_of(licence: &Licence, number: u32, args: &[Flat]) -> Needs
    requires fits { FitsEntry licence.now number args.now }
    requires few { size_all (parts args.now) ≤ 65536 }
    ensures { IsBoundOf licence.now number args.now result }
{
    licence.needs(number, args)
}

// The call of a function on a text of arguments.
#[tactic(auto, using(crate::proofs::Coming::read_fits))]
fn call_function(
    alloc: Global,
    licence: &Licence,
    known: &Known,
    number: u32,
    text: &[u8],
    fuel: u64,
) -> Result<Result<Call, JobCause>, AllocError>
    requires there { number < length licence.now.code.funcs }
    requires short { length text.now < 4294967296 }
    requires knows { Knows licence.now.code.types known.now.inhabited }
    requires named { AreNamed licence.now.code.types }
    ensures { (f : plain.Func) → slice_get licence.now.code.funcs number ≡ Some f
        → IfOk result (IsOfArgs licence.now known.now.licence number f text.now fuel) }
{
    licence.kept();
    match parse(alloc, licence.code(), &known.inhabited, number, text) {
        Ok(args) => {
            let needs = needs_of(licence, number, &args);
            Ok(Ok(Call {
                licence: known.licence,
                entry: number,
                args,
                needs,
                fuel,
            }))
        }
        Err(Stop::Fault(ValueFault::BadShape { at })) => Ok(Err(JobCause::Argument { at })),
        Err(Stop::Fault(ValueFault::TooLong { items })) => Ok(Err(JobCause::Long { items })),
        Err(Stop::Memory) => Err(AllocError),
    }
}

// The call of the function of this name, of a program that has a licence.
#[tactic(auto, using(crate::proofs::Coming::number_within))]
fn call_known(
    alloc: Global,
    licences: &[Licence],
    known: &Known,
    name: &[u8],
    text: &[u8],
    fuel: u64,
) -> Result<Result<Call, JobCause>, AllocError>
    requires known { IsUsable licences.now known.now }
    requires short { length text.now < 4294967296 }
    ensures { (p : ProgramText) → Holds licences.now p known.now → IfOk result (IsAsked licences.now (Some p) name.now text.now fuel) }
{
    law_of_compiler();
    let licence = &licences[known.licence as usize];
    match licence.code().func(name) {
        Some(number) => call_function(alloc, licence, known, number, text, fuel),
        None => Ok(Err(JobCause::NoEntry)),
    }
}

/// The call that a job asks for, by the name of its program, the name of its entry, the text of its arguments and its
/// fuel; or why it has none. A job has one fate at most, so there is no other answer. Nothing runs.
///
/// `AllocError` where memory runs out.
#[tactic(auto, using(crate::proofs::Coming::usable, crate::proofs::Coming::row_fits))]
pub fn call(
    alloc: Global,
    licences: &[Licence],
    programs: &[Row<'_>],
    program: &[u8],
    entry: &[u8],
    text: &[u8],
    fuel: u64,
) -> Result<Result<Call, JobCause>, AllocError>
    // What is known of the programs is so, and these are their licences.
    requires programs { AreRows licences.now (map row_of programs.now) }
    // The text has fewer than 2^32 bytes.
    requires short { length text.now < 4294967296 }
    // A call is answered just where it is what comes of the job, and a cause just where the job is refused for it.
    ensures { IfOk result (IsAsked licences.now (row_program (row_among (map row_of programs.now) program.now)) entry.now text.now fuel) }
{
    match find(programs, program) {
        Some(row) => match &row.known {
            Some(known) => call_known(alloc, licences, known, entry, text, fuel),
            None => Ok(Err(JobCause::ProgramRefused)),
        },
        None => Ok(Err(JobCause::NoProgram)),
    }
}
