//! Standard streams that are interrupted, end, or take nothing.
use pf_io::{Failed, Sink, Source, StdSink, StdSource, read_all};
use std::io;
use std::io::{Error, ErrorKind, Read, Write};
use std::test::Fail;

// A stream that is interrupted once, and then takes or gives a byte a call, twice, and nothing more.
#[derive(Drop)]
struct Halting {
    calls: u8,
}

impl Halting {
    fn call(&mut self) -> io::Result<usize> {
        self.calls = self.calls.saturating_add(1);
        match self.calls {
            1 => Err(Error::from(ErrorKind::Interrupted)),
            2 | 3 => Ok(1),
            4 => Ok(0),
            _ => Err(Error::from(ErrorKind::BrokenPipe)),
        }
    }
}

impl Read for Halting {
    fn read(&mut self, buf: &mut [u8]) -> io::Result<usize> {
        let count = self.call()?;
        Ok(count.min(buf.len()))
    }
}

impl Write for Halting {
    fn write(&mut self, buf: &[u8]) -> io::Result<usize> {
        let count = self.call()?;
        Ok(count.min(buf.len()))
    }

    fn flush(&mut self) -> io::Result<()> {
        self.call()?;
        Ok(())
    }
}

#[test]
fn a_reader_is_asked_again_after_an_interruption(rt: HostRuntime) -> Result<(), Fail> {
    let mut input = StdSource::new(Halting { calls: 0 });
    assert_eq!(rt; read_all(rt.alloc(), &mut input)?.len(), 2);
    assert_eq!(rt; input.read(&mut [0; 4]), Err(Failed));
    Ok(())
}

#[test]
fn a_writer_that_takes_nothing_is_at_fault(rt: HostRuntime) {
    let mut output = StdSink::new(Halting { calls: 0 });
    assert_eq!(rt; output.flush(), Ok(()));
    assert_eq!(rt; output.write(b"perfly"), Ok(1));
    assert_eq!(rt; output.write(b"erfly"), Err(Failed));
    assert_eq!(rt; output.flush(), Err(Failed));
}
