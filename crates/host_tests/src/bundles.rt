//! Bundles through the host: what `compile` writes is accepted by `verify`, an older one is migrated to it, and a script
//! may have either as a program.

use camelot_host::{Status, host};
use host_io::{MemorySink, MemorySource};
use std::test::Fail;

const SOURCE: &[u8] = b"let add (a : int) (b : int) : int = a + b\n";

const BUNDLE: &[u8] =
    b"grail code\n47524c32000103616464020000000100010200010102030000010002\ngrail certificate 1\nunit 1\nfunction add need 0 back 0\nend\n";

const OLDER: &[u8] =
    b"grail code\n47524c31000103616464020000000100010200010102030000010002\ngrail certificate 1\nunit 1\nfunction add need 0 back 0\nend\n";

const SCRIPT: &[u8] =
    b"arena 4\nworkers 1\nprogram g grail\ngrail code\n47524c31000103616464020000000100010200010102030000010002\ngrail certificate 1\nunit 1\nfunction add need 0 back 0\nend\n.\njob a g add 10 2 3\n";

const REPORT: &[u8] =
    b"program g accepted unit 1\njob a done 5 calls 1 peak 0 bound 0\ntook a first 0 size 1\ngave a first 0 size 1\nend free 4\n";

#[test]
fn what_is_compiled_is_accepted(rt: HostRuntime) -> Result<(), Fail> {
    let alloc = rt.alloc();
    let words = vec![in alloc; String::from_str(alloc, "compile")?]?;
    let mut source = MemorySource::new(Vec::from_slice(alloc, SOURCE)?, 16, Vec::new(alloc));
    let mut sink = MemorySink::new(alloc, 1000, 16, Vec::new(alloc))?;
    assert_eq!(rt;
        host(&rt, alloc, &words, &mut source, &mut sink),
        Status::Ok
    );
    assert_eq!(rt; sink.told(), BUNDLE);

    let words = vec![in alloc; String::from_str(alloc, "verify")?]?;
    let mut source = MemorySource::new(Vec::from_slice(alloc, BUNDLE)?, 16, Vec::new(alloc));
    let mut sink = MemorySink::new(alloc, 1000, 16, Vec::new(alloc))?;
    assert_eq!(rt;
        host(&rt, alloc, &words, &mut source, &mut sink),
        Status::Ok
    );
    assert_eq!(rt;
        sink.told(),
        b"accepted unit 1\nfunction add (0)/1\n".as_slice()
    );
    Ok(())
}

#[test]
fn a_bundle_is_served(rt: HostRuntime) -> Result<(), Fail> {
    let alloc = rt.alloc();
    let words = vec![in alloc; String::from_str(alloc, "serve")?]?;
    let mut source = MemorySource::new(Vec::from_slice(alloc, SCRIPT)?, 16, Vec::new(alloc));
    let mut sink = MemorySink::new(alloc, 1000, 16, Vec::new(alloc))?;
    assert_eq!(rt;
        host(&rt, alloc, &words, &mut source, &mut sink),
        Status::Ok
    );
    assert_eq!(rt; sink.told(), REPORT);
    Ok(())
}

#[test]
fn an_older_bundle_is_migrated(rt: HostRuntime) -> Result<(), Fail> {
    let alloc = rt.alloc();
    let words = vec![in alloc; String::from_str(alloc, "migrate")?]?;
    let mut source = MemorySource::new(Vec::from_slice(alloc, OLDER)?, 16, Vec::new(alloc));
    let mut sink = MemorySink::new(alloc, 1000, 16, Vec::new(alloc))?;
    assert_eq!(rt;
        host(&rt, alloc, &words, &mut source, &mut sink),
        Status::Ok
    );
    assert_eq!(rt; sink.told(), BUNDLE);

    let mut source = MemorySource::new(Vec::from_slice(alloc, BUNDLE)?, 16, Vec::new(alloc));
    let mut sink = MemorySink::new(alloc, 1000, 16, Vec::new(alloc))?;
    assert_eq!(rt;
        host(&rt, alloc, &words, &mut source, &mut sink),
        Status::Ok
    );
    assert_eq!(rt; sink.told(), BUNDLE);
    Ok(())
}
