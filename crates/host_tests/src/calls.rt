//! Calls, and one input, that no command has: what they answer where there is enough memory.

use camelot_syntax::parse;
use camelot_types::check;
use camelot_values::{Flat, Item, Kind};
use cell_machine::Ending;
use grail_code::DecodeFault;
use grail_verifier::{Refusal, verify};
use job_script::{read_script, write_script};
use lease_desk::Event;
use run_reports::{JobCause, JobLine, Outcome, ProgramLine, report, summary};
use std::alloc::{AllocError, Global};
use std::test::Fail;
use stops::Stop;

const SCRIPT: &[u8] =
    b"arena 4\nworkers 1\nprogram p camelot\nlet add (a : int) (b : int) : int = a + b\n.\njob a p add 10 2 3\njob b p add 10 2\n";

const REPORT: &[u8] =
    b"program p accepted unit 1\njob a done 5 calls 1 peak 0 bound 0\njob b refused argument at 1\ntook a first 0 size 1\ngave a first 0 size 1\nend free 4\n";

const LISTS: &[u8] = b"type ilist = !Nil | Cons of int * ilist\nlet one x = Cons(x, Nil)\n";

#[test]
fn a_script_is_written_as_it_was_read(rt: HostRuntime) -> Result<(), Fail> {
    let alloc = rt.alloc();
    let script = read_script(alloc, SCRIPT)?;
    let written = write_script(alloc, &script)?;
    assert_eq!(rt; written.as_slice(), SCRIPT);
    Ok(())
}

// What is kept of what comes of the script.
#[derive(Drop)]
struct Came {
    programs: Vec<ProgramLine>,
    ending: Ending,
    asked: Vec<u32>,
    journal: Vec<Event>,
}

fn make_came(alloc: Global) -> Result<Came, AllocError> {
    let value = Flat::of(vec![in alloc; Item::Int(5)]?);
    Ok(Came {
        programs: vec![in alloc; ProgramLine::Accepted { unit: 1 }]?,
        ending: Ending::Done {
            value,
            calls: 1,
            peak: 0,
        },
        asked: vec![in alloc; 1]?,
        journal: vec![in alloc;
            Event::Took {
                job: 0,
                first: 0,
                size: 1,
            },
            Event::Gave {
                job: 0,
                first: 0,
                size: 1,
            },
        ]?,
    })
}

// What comes of the script, by what is kept of it.
fn outcome<'a>(alloc: Global, came: &'a Came) -> Result<Outcome<'a, Ending>, AllocError> {
    Ok(Outcome {
        programs: &came.programs,
        jobs: vec![in alloc;
            JobLine::Ended {
                ending: &came.ending,
                fuel: 10,
                bound: 0,
                licence: 0,
            },
            JobLine::Refused {
                cause: JobCause::Argument { at: 1 },
            },
        ]?,
        asked: &came.asked,
        journal: &came.journal,
        free: 4,
    })
}

#[test]
fn what_came_of_a_script_is_reported(rt: HostRuntime) -> Result<(), Fail> {
    let alloc = rt.alloc();
    let script = read_script(alloc, SCRIPT)?;
    let came = make_came(alloc)?;
    let text = report(alloc, &script, &[], &outcome(alloc, &came)?)?;
    assert_eq!(rt; text.as_slice(), REPORT);
    Ok(())
}

#[test]
fn what_came_of_a_script_is_summed_up(rt: HostRuntime) -> Result<(), Fail> {
    let alloc = rt.alloc();
    let came = make_came(alloc)?;
    let text = summary(alloc, &outcome(alloc, &came)?)?;
    assert_eq!(rt;
        text.as_slice(),
        b"drill 2 done 1 fuel 0 deep 0 too-large 0 refused 1 calls 1 peaks 0 free 4\n".as_slice()
    );
    Ok(())
}

#[test]
fn a_program_is_checked_and_stays(rt: HostRuntime) -> Result<(), Fail> {
    let alloc = rt.alloc();
    let program = parse(alloc, LISTS)?;
    let typed = check(alloc, &program)?;
    assert_eq!(rt; program.funs.len(), 1);
    assert_eq!(rt; typed.funs.len(), 1);
    assert_eq!(rt; typed.funs[0].params.as_slice(), [Kind::Int].as_slice());
    assert_eq!(rt; typed.funs[0].result, Kind::Of(0));
    Ok(())
}

#[test]
fn a_value_fits_its_kind_and_no_other(rt: HostRuntime) -> Result<(), Fail> {
    let alloc = rt.alloc();
    let program = parse(alloc, LISTS)?;
    let typed = check(alloc, &program)?;
    let list = Flat::of(vec![in alloc;
        Item::Con { parts: 2, con: 1 },
        Item::Int(7),
        Item::Con { parts: 0, con: 0 },
    ]?);
    assert_eq!(rt; list.fits(alloc, &typed.types, Kind::Of(0)), Ok(true));
    assert_eq!(rt; list.fits(alloc, &typed.types, Kind::Int), Ok(false));
    Ok(())
}

#[test]
fn no_bytes_are_no_code(rt: HostRuntime) {
    let alloc = rt.alloc();
    let refused = verify(alloc, Vec::new(alloc), Vec::new(alloc)).err();
    assert_eq!(rt;
        refused,
        Some(Stop::Fault(Refusal::Code(DecodeFault::Short)))
    );
}
