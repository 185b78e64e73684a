//! Runs that the machine can make.
ghost use Rattle.std.specs.Prelude.{◌+◌, ◌≤◌, IfOk, IfSome, IsTrue};
ghost use Rattle.camelot_values.specs.Counts.{cells_among};
ghost use Rattle.camelot_values.specs.Outcome.{peak_of};
ghost use Rattle.cell_machine.specs.Endings.{most_calls};
ghost use Rattle.grail_code.specs.Code.{code_of};
ghost use Rattle.grail_code.specs.Meaning.{run_of};
ghost use Rattle.cases_cells.specs.Jobs.{IsGood, IsReady};

use crate::machines::taken::{just_taken, most_taken};
use camelot_values::{Flat, Types};
use grail_check::check_code;
use grail_code::{Code, decode};
use std::alloc::{AllocError, Global};
use std::io;
use value_text::read;

/// A run in so many cells, which are enough for it.
#[derive(Drop)]
pub(crate) struct Job {
    pub(crate) code: Code,
    pub(crate) entry: u32,
    pub(crate) args: Vec<Flat>,
    pub(crate) fuel: u64,
    pub(crate) lease: u32,
}

/// The numbers of a job.
#[derive(Clone, Copy)]
pub(crate) struct Numbers {
    pub(crate) entry: u32,
    pub(crate) lease: u32,
    pub(crate) fuel: u64,
}

// Whether the arguments need at most so many cells.
fn cells_fit(types: &Types, args: &[Flat], most: u64) -> bool
    ensures { IsTrue result → cells_among types.now args.now ≤ most }
{
    match args {
        [] => true,
        [first, rest @ ..] => {
            let cells = first.cells(types);
            if cells > most {
                return false;
            }
            cells_fit(types, rest, most - cells)
        }
    }
}

// Whether so many cells are enough for the arguments and for what the run takes. What it takes is known from its code
// and fuel, or else from the evaluator.
fn is_enough(
    alloc: Global,
    code: &Code,
    numbers: Numbers,
    args: &[Flat],
) -> Result<bool, AllocError>
    ensures { IfOk result (λ enough. IsTrue enough → cells_among (code_of code.now).types args.now + peak_of
        (run_of (code_of code.now) most_calls numbers.entry numbers.fuel args.now) ≤ numbers.lease) }
{
    let lease = u64::from(numbers.lease);
    if let Some(most) = most_taken(code, numbers.fuel) {
        if most <= lease {
            if cells_fit(&code.types, args, lease - most) {
                return Ok(true);
            }
        }
    }
    match just_taken(alloc, code, numbers.entry, numbers.fuel, args)? {
        Some(most) => {
            if most > lease {
                return Ok(false);
            }
            Ok(cells_fit(&code.types, args, lease - most))
        }
        None => Ok(false),
    }
}

// The code of these bytes, where it is well formed; otherwise what is wrong is printed.
#[tactic(auto, using(crate::proofs::Named::good))]
fn code_of_bytes(rt: &HostRuntime, bytes: &[u8]) -> io::Result<Option<Code>>
    ensures { IfOk result (λ found. IfSome found (λ code. IsGood (code_of code))) }
{
    let code = match decode(rt.alloc(), bytes) {
        Ok(code) => code,
        Err(fault) => {
            print!(rt; " {fault}")?;
            return Ok(None);
        }
    };
    match check_code(rt.alloc(), &code)? {
        Ok(()) => Ok(Some(code)),
        Err(fault) => {
            print!(rt; " {fault}")?;
            Ok(None)
        }
    }
}

/// The run of these bytes as code, with arguments of this text; where it can't be made, the reason is printed.
pub(crate) fn job_of(
    rt: &HostRuntime,
    bytes: &[u8],
    numbers: Numbers,
    text: &[u8],
) -> io::Result<Option<Job>>
    ensures { IfOk result (λ found. IfSome found IsReady) }
{
    let alloc = rt.alloc();
    let code = match code_of_bytes(rt, bytes)? {
        Some(code) => code,
        None => return Ok(None),
    };
    let Numbers { entry, lease, fuel } = numbers;
    if entry as usize >= code.funcs.len()
        || lease < 1
        || lease > 2_147_483_648
        || fuel < 1
        || text.len() >= 4_294_967_296
    {
        print!(rt; " no such run")?;
        return Ok(None);
    }
    let args = match read(alloc, text, &code.types, &code.funcs[entry as usize].params) {
        Ok(args) => args,
        Err(_) => {
            print!(rt; " no such arguments")?;
            return Ok(None);
        }
    };
    if !is_enough(alloc, &code, numbers, &args)? {
        print!(rt; " the cells may not be enough")?;
        return Ok(None);
    }
    Ok(Some(Job {
        code,
        entry,
        args,
        fuel,
        lease,
    }))
}
