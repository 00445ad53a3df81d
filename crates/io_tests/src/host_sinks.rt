//! Writers of the host: a file, a full one, and one that takes a byte a call.

use crate::sinks::takes;
use os_io::{Failed, HostSink, write_whole};
use std::fs;
use std::io::{self, Write};
use std::test::Fail;

#[test]
fn writes_to_a_file_and_not_to_a_full_one(rt: HostRuntime) -> Result<(), Fail> {
    let mut sink = HostSink::new(fs::create(&rt, "io_tests_host_sink")?);
    takes(&rt, &mut sink, &[(b"alpha", Ok(5)), (b"", Ok(0))]);
    let written = fs::read(&rt, "io_tests_host_sink")?;
    assert!(rt; written.as_slice() == b"alpha".as_slice());
    fs::remove_file(&rt, "io_tests_host_sink")?;
    let mut full = HostSink::new(fs::create(&rt, "/dev/full")?);
    takes(&rt, &mut full, &[(b"alpha", Err(Failed))]);
    Ok(())
}

/// A writer that takes one byte of each piece.
#[derive(Drop)]
struct OneByte<W: Write> {
    writer: W,
}

impl<W: Write> Write for OneByte<W> {
    fn write(&mut self, piece: &[u8]) -> io::Result<usize> {
        self.writer.write(&piece[..piece.len().min(1)])
    }

    fn flush(&mut self) -> io::Result<()> {
        self.writer.flush()
    }
}

#[test]
fn writes_to_a_writer_that_takes_one_byte(rt: HostRuntime) -> Result<(), Fail> {
    let writer = fs::create(&rt, "io_tests_one_byte")?;
    let mut sink = HostSink::new(OneByte { writer });
    takes(&rt, &mut sink, &[(b"alpha", Ok(1))]);
    assert!(rt; write_whole(&mut sink, b"lpha").is_ok());
    let written = fs::read(&rt, "io_tests_one_byte")?;
    assert!(rt; written.as_slice() == b"alpha".as_slice());
    fs::remove_file(&rt, "io_tests_one_byte")?;
    Ok(())
}
