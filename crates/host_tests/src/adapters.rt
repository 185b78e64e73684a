//! The adapters over readers and writers that fail at one call and not at the next.

use host_io::{Failed, ReadStop, Sink, Source, StdSink, StdSource, read_all, write_all};
use std::io;
use std::io::{ErrorKind, Read, Write};
use std::test::Fail;

// A reader that gives the byte 7, fails, gives it again, fails, and is then at its end.
#[derive(Drop)]
struct Stutters {
    calls: u64,
}

impl Read for Stutters {
    fn read(&mut self, buf: &mut [u8]) -> io::Result<usize> {
        self.calls = self.calls.saturating_add(1);
        if self.calls % 2 == 0 {
            return Err(ErrorKind::Other.into());
        }
        if buf.is_empty() || self.calls > 3 {
            return Ok(0);
        }
        buf[0] = 7;
        Ok(1)
    }
}

#[test]
fn an_error_of_the_reader_is_one_fault(rt: HostRuntime) -> Result<(), Fail> {
    let mut source = StdSource::new(Stutters { calls: 0 });
    let mut into = [9; 2];
    assert_eq!(rt; source.take(&mut into), Ok(1));
    assert_eq!(rt; source.take(&mut into), Err(Failed));
    assert_eq!(rt; (source.taken, source.faults), (1, 1));
    assert_eq!(rt; source.reader.calls, 2);
    assert_eq!(rt;
        read_all(rt.alloc(), &mut source, 9).err(),
        Some(ReadStop::Fault)
    );
    assert_eq!(rt; (source.taken, source.faults), (2, 2));
    assert_eq!(rt; read_all(rt.alloc(), &mut source, 9)?.len(), 0);
    assert_eq!(rt; (source.taken, source.faults), (2, 2));
    assert_eq!(rt; source.reader.calls, 5);
    Ok(())
}

// A writer that takes one byte, fails, takes one, takes none, and then takes one at each call.
#[derive(Drop)]
struct Hesitates {
    calls: u64,
}

impl Write for Hesitates {
    fn write(&mut self, buf: &[u8]) -> io::Result<usize> {
        self.calls = self.calls.saturating_add(1);
        match self.calls {
            2 => Err(ErrorKind::Other.into()),
            4 => Ok(0),
            _ => Ok(buf.len().min(1)),
        }
    }

    fn flush(&mut self) -> io::Result<()> {
        Ok(())
    }
}

#[test]
fn an_error_of_the_writer_is_one_fault(rt: HostRuntime) {
    let mut sink = StdSink::new(Hesitates { calls: 0 });
    assert_eq!(rt; write_all(&mut sink, &[1, 2, 3]), Err(Failed));
    assert_eq!(rt; (sink.writer.calls, sink.faults), (2, 1));
    assert_eq!(rt; sink.put(&[2, 3]), Ok(1));
    assert_eq!(rt; sink.put(&[3]), Err(Failed));
    assert_eq!(rt; (sink.writer.calls, sink.faults), (4, 2));
    assert_eq!(rt; write_all(&mut sink, &[3, 4]), Ok(()));
    assert_eq!(rt; (sink.writer.calls, sink.faults), (6, 2));
}
