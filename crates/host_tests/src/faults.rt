//! The host over devices that fail at one of their calls: the second, and each in turn.

use camelot_host::{Status, host};
use host_io::{MemorySink, MemorySource};
use std::alloc::{AllocError, Global};
use std::sync::Wait;
use std::test::Fail;
use std::thread::Threads;

const SCRIPT: &[u8] =
    b"arena 4\nworkers 1\nprogram p camelot\nlet add (a : int) (b : int) : int = a + b\n.\njob a p add 10 2 3\n";

#[test]
fn a_fault_of_reading_tells_nothing(rt: HostRuntime) -> Result<(), Fail> {
    let alloc = rt.alloc();
    let words = vec![in alloc; String::from_str(alloc, "serve")?]?;
    let bytes = Vec::from_slice(alloc, SCRIPT)?;
    let mut source = MemorySource::new(bytes, 16, vec![in alloc; 1]?);
    let mut sink = MemorySink::new(alloc, 1000, 16, Vec::new(alloc))?;
    assert_eq!(rt;
        host(&rt, alloc, &words, &mut source, &mut sink),
        Status::ReadFault
    );
    assert!(rt; sink.told().is_empty());
    Ok(())
}

#[test]
fn a_fault_of_writing_leaves_a_front(rt: HostRuntime) -> Result<(), Fail> {
    let alloc = rt.alloc();
    let words = vec![in alloc; String::from_str(alloc, "serve")?]?;
    let bytes = Vec::from_slice(alloc, SCRIPT)?;
    let mut source = MemorySource::new(bytes, 16, Vec::new(alloc));
    let mut sink = MemorySink::new(alloc, 1000, 16, vec![in alloc; 1]?)?;
    assert_eq!(rt;
        host(&rt, alloc, &words, &mut source, &mut sink),
        Status::WriteFault
    );
    assert_eq!(rt; sink.told(), b"program p accept".as_slice());
    Ok(())
}

// What comes of the script where the calls of these numbers fail, of a source and a sink that take a byte at a time.
fn serve_by_bytes<R: Threads + Wait + Sync>(
    rt: &R,
    alloc: Global,
    reading: Vec<u64>,
    writing: Vec<u64>,
) -> Result<(Status, Vec<u8>), AllocError> {
    let words = vec![in alloc; String::from_str(alloc, "serve")?]?;
    let bytes = Vec::from_slice(alloc, SCRIPT)?;
    let mut source = MemorySource::new(bytes, 1, reading);
    let mut sink = MemorySink::new(alloc, 1000, 1, writing)?;
    let status = host(rt, alloc, &words, &mut source, &mut sink);
    let told = Vec::from_slice(alloc, sink.told())?;
    Ok((status, told))
}

#[test]
fn each_call_of_reading_may_fail(rt: HostRuntime) -> Result<(), Fail> {
    let alloc = rt.alloc();
    assert_eq!(rt; SCRIPT.len(), 99);
    for call in 0..100u64 {
        let (status, told) = serve_by_bytes(&rt, alloc, vec![in alloc; call]?, Vec::new(alloc))?;
        assert_eq!(rt; status, Status::ReadFault);
        assert!(rt; told.is_empty());
    }
    let (status, told) = serve_by_bytes(&rt, alloc, vec![in alloc; 100]?, Vec::new(alloc))?;
    assert_eq!(rt; status, Status::Ok);
    assert_eq!(rt; told.len(), 117);
    Ok(())
}

#[test]
fn each_call_of_writing_may_fail(rt: HostRuntime) -> Result<(), Fail> {
    let alloc = rt.alloc();
    let (_, report) = serve_by_bytes(&rt, alloc, Vec::new(alloc), Vec::new(alloc))?;
    assert_eq!(rt; report.len(), 117);
    for call in 0..117usize {
        let calls = vec![in alloc; call as u64]?;
        let (status, told) = serve_by_bytes(&rt, alloc, Vec::new(alloc), calls)?;
        assert_eq!(rt; status, Status::WriteFault);
        assert_eq!(rt; told.as_slice(), &report[..call]);
    }
    let (status, told) = serve_by_bytes(&rt, alloc, Vec::new(alloc), vec![in alloc; 117]?)?;
    assert_eq!(rt; status, Status::Ok);
    assert_eq!(rt; told, report);
    Ok(())
}
