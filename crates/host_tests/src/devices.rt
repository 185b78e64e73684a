//! Reading and writing over memory, where there is enough of it.

use host_io::{
    Failed, MemorySink, MemorySource, ReadStop, Sink, SureSink, SureSource, read_all, write_all,
};
use std::test::Fail;

#[test]
fn reads_more_than_one_chunk(rt: HostRuntime) -> Result<(), Fail> {
    let mut bytes = vec![in rt.alloc(); 7; 39999]?;
    bytes.push(8)?;
    let mut source = SureSource::new(bytes);
    let all = read_all(rt.alloc(), &mut source, 40000)?;
    assert_eq!(rt; all.len(), 40000);
    assert_eq!(rt; all.last(), Some(&8));
    Ok(())
}

#[test]
fn reads_on_after_a_fault(rt: HostRuntime) -> Result<(), Fail> {
    let bytes = [1, 2, 3, 4, 5].to_vec(rt.alloc())?;
    let mut source = MemorySource::new(bytes, 2, [1].to_vec(rt.alloc())?);
    assert_eq!(rt;
        read_all(rt.alloc(), &mut source, 5).err(),
        Some(ReadStop::Fault)
    );
    assert_eq!(rt;
        read_all(rt.alloc(), &mut source, 5)?.as_slice(),
        [3, 4, 5].as_slice()
    );
    Ok(())
}

#[test]
fn writes_on_after_a_fault(rt: HostRuntime) -> Result<(), Fail> {
    let mut sink = MemorySink::new(rt.alloc(), 9, 2, [1].to_vec(rt.alloc())?)?;
    assert_eq!(rt; write_all(&mut sink, &[1, 2, 3]), Err(Failed));
    assert_eq!(rt; write_all(&mut sink, &[4, 5, 6]), Ok(()));
    assert_eq!(rt; sink.told(), [1, 2, 4, 5, 6].as_slice());
    Ok(())
}

#[test]
fn a_sure_sink_tells_while_there_is_room(rt: HostRuntime) -> Result<(), Fail> {
    let mut sink = SureSink::new(rt.alloc(), 3)?;
    assert_eq!(rt; sink.put(&[1, 2]), Ok(2));
    assert_eq!(rt; sink.put(&[3]), Ok(1));
    assert!(rt; sink.told() == Some(&[1, 2, 3]));
    assert_eq!(rt; sink.put(&[4, 5]), Ok(2));
    assert!(rt; sink.told().is_none());
    Ok(())
}

#[test]
fn errors_have_texts(rt: HostRuntime) -> Result<(), Fail> {
    let texts = [
        (ReadStop::Fault, "the input could not be read"),
        (ReadStop::TooLong, "the input is too long"),
        (ReadStop::Memory, "out of memory"),
    ];
    for (stop, text) in texts {
        assert_eq!(rt; format!(in rt.alloc(); "{stop}")?.as_str(), text);
    }
    assert_eq!(rt;
        format!(in rt.alloc(); "{}", Failed)?.as_str(),
        "the device failed"
    );
    Ok(())
}
