//! The host's workers at a gate: that jobs run beside each other, and the arena that they leave.

use camelot_host::{Gate, OpenGate, Status, host_gated};
use cell_span::{Cell, Span};
use host_io::{SureSink, SureSource};
use std::alloc::AllocError;
use std::sync::atomic::{AtomicBool, Ordering};
use std::test::Fail;

/// How often job 0 looks whether job 1 has passed, before it goes on without it.
const MOST_LOOKS: u32 = 1_000_000_000;

const TWO_JOBS: &[u8] =
    b"arena 4\nworkers 2\nprogram p camelot\nlet add (a : int) (b : int) : int = a + b\n.\njob a p add 10 2 3\njob b p add 10 2 3\n";

const ONE_JOB: &[u8] =
    b"arena 4\nworkers 1\nprogram p camelot\nlet add (a : int) (b : int) : int = a + b\n.\njob a p add 10 2 3\n";

// Holds job 0 until job 1 has passed, and notes whether it did.
#[derive(Drop)]
struct Holds {
    second_passed: AtomicBool,
    first_saw: AtomicBool,
}

impl Gate for Holds {
    fn pass(&self, job: u32) -> Result<(), AllocError> {
        if job == 1 {
            self.second_passed.store(true, Ordering::SeqCst);
        }
        if job == 0 {
            for _ in 0..MOST_LOOKS {
                if self.second_passed.load(Ordering::SeqCst) {
                    self.first_saw.store(true, Ordering::SeqCst);
                    return Ok(());
                }
            }
        }
        Ok(())
    }
}

// Refuses memory to every job.
#[derive(Drop)]
struct Shut;

impl Gate for Shut {
    fn pass(&self, _job: u32) -> Result<(), AllocError> {
        Err(AllocError)
    }
}

#[test]
fn a_job_waits_until_the_next_one_has_passed(rt: HostRuntime) -> Result<(), Fail> {
    let alloc = rt.alloc();
    let words = vec![in alloc; String::from_str(alloc, "serve")?]?;
    let mut source = SureSource::new(Vec::from_slice(alloc, TWO_JOBS)?);
    let mut sink = SureSink::new(alloc, 1000)?;
    let gate = Holds {
        second_passed: AtomicBool::new(false),
        first_saw: AtomicBool::new(false),
    };
    let served = host_gated(&rt, alloc, &words, &mut source, &mut sink, &gate);
    let status = served.end();
    assert_eq!(rt; status, Status::Ok);
    assert!(rt; gate.first_saw.load(Ordering::SeqCst));
    Ok(())
}

// The tags and the words of an arena of four cells.
fn four_of(span: &Span) -> Option<[Cell; 4]> {
    if span.len() != 4 {
        return None;
    }
    Some([span.get(0), span.get(1), span.get(2), span.get(3)])
}

#[test]
fn a_job_leaves_its_value_in_the_arena(rt: HostRuntime) -> Result<(), Fail> {
    let alloc = rt.alloc();
    let words = vec![in alloc; String::from_str(alloc, "serve")?]?;
    let mut source = SureSource::new(Vec::from_slice(alloc, ONE_JOB)?);
    let mut sink = SureSink::new(alloc, 1000)?;
    let served = host_gated(&rt, alloc, &words, &mut source, &mut sink, &OpenGate);
    let cells = match served.arena() {
        Some(span) => four_of(span),
        None => None,
    };
    let status = served.end();
    assert_eq!(rt; status, Status::Ok);
    let value = Cell {
        tag: 4294967295,
        words: [4294967295, 0, 0, 0],
    };
    let blank = Cell {
        tag: 0,
        words: [0; 4],
    };
    assert_eq!(rt; cells, Some([value, blank, blank, blank]));
    Ok(())
}

#[test]
fn a_gate_that_refuses_tells_nothing(rt: HostRuntime) -> Result<(), Fail> {
    let alloc = rt.alloc();
    let words = vec![in alloc; String::from_str(alloc, "serve")?]?;
    let mut source = SureSource::new(Vec::from_slice(alloc, TWO_JOBS)?);
    let mut sink = SureSink::new(alloc, 1000)?;
    let served = host_gated(&rt, alloc, &words, &mut source, &mut sink, &Shut);
    let none_left = served.arena().is_none();
    assert_eq!(rt; served.end(), Status::Memory);
    assert!(rt; none_left);
    assert_eq!(rt; sink.told(), Some([].as_slice()));
    Ok(())
}
