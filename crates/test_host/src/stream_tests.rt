//! Readers and writers whose calls a signal interrupts.
use pv_io::{Sink, Source, StdSink, StdSource};
use std::io::{self, ErrorKind, Read, Write};

/// A reader and a writer of one byte a call, interrupted so many times before that.
#[derive(Drop)]
struct Interrupted {
    times: u32,
}

impl Interrupted {
    /// One call.
    fn call(&mut self) -> io::Result<()> {
        if self.times == 0 {
            return Ok(());
        }
        self.times -= 1;
        Err(io::Error::from(ErrorKind::Interrupted))
    }
}

impl Read for Interrupted {
    fn read(&mut self, buf: &mut [u8]) -> io::Result<usize> {
        self.call()?;
        match buf {
            [] => Ok(0),
            [first, ..] => {
                *first = b'a';
                Ok(1)
            }
        }
    }
}

impl Write for Interrupted {
    fn write(&mut self, buf: &[u8]) -> io::Result<usize> {
        self.call()?;
        Ok(buf.len().min(1))
    }

    fn flush(&mut self) -> io::Result<()> {
        Ok(())
    }
}

/// An interrupted call is tried again, and not for ever.
#[test]
fn tries_again(rt: HostRuntime) {
    let mut piece = [0u8; 4];
    let mut source = StdSource::new(Interrupted { times: 3 });
    assert!(rt; matches!(source.read(&mut piece), Ok(1)));
    assert_eq!(rt; piece[0], b'a');
    let mut sink = StdSink::new(Interrupted { times: 3 });
    assert!(rt; matches!(sink.write(b"ab"), Ok(1)));
    let mut never = StdSource::new(Interrupted { times: u32::MAX });
    assert!(rt; never.read(&mut piece).is_err());
    let mut never = StdSink::new(Interrupted { times: u32::MAX });
    assert!(rt; never.write(b"ab").is_err());
}
