//! Files of the host: one that is there, a folder, and a pipe.

use crate::files::{Call, Step, gives};
use os_io::{Failed, HostFiles};
use std::fs;
use std::io::{self, Write};
use std::os::fd::AsRawFd;
use std::test::Fail;

static STEPS: [Step<'static>; 12] = [
    // there is no such file, and none is open
    (Call::Open("io_tests_no_such_file"), Err(Failed), b"\0\0\0"),
    (Call::Read, Ok(0), b"\0\0\0"),
    (Call::Open("io_tests_host_files"), Ok(0), b"\0\0\0"),
    (Call::Read, Ok(3), b"alp"),
    // the file was closed
    (Call::Open("io_tests_no_such_file"), Err(Failed), b"alp"),
    (Call::Read, Ok(0), b"alp"),
    // from its front again, to its end
    (Call::Open("io_tests_host_files"), Ok(0), b"alp"),
    (Call::Read, Ok(3), b"alp"),
    (Call::Read, Ok(2), b"hap"),
    (Call::Read, Ok(0), b"hap"),
    // a folder
    (Call::Open("."), Ok(0), b"hap"),
    (Call::Read, Err(Failed), b"hap"),
];

#[test]
fn reads_a_file_and_no_folder(rt: HostRuntime) -> Result<(), Fail> {
    fs::write(&rt, "io_tests_host_files", b"alpha")?;
    let mut files = HostFiles::new(&rt);
    gives(&rt, &mut files, &mut [0u8; 3], &STEPS);
    fs::remove_file(&rt, "io_tests_host_files")?;
    Ok(())
}

// A pipe gives what was written to it so far, and not what fits.
#[test]
fn reads_a_pipe_as_it_comes(rt: HostRuntime) -> Result<(), Fail> {
    let (reader, mut writer) = io::pipe(&rt)?;
    let name = format!(in rt.alloc(); "/dev/fd/{}", reader.as_raw_fd())?;
    let mut files = HostFiles::new(&rt);
    let mut piece = [0u8; 4];
    writer.write_all(b"al")?;
    gives(
        &rt,
        &mut files,
        &mut piece,
        &[
            (Call::Open(&name), Ok(0), b"\0\0\0\0"),
            (Call::Read, Ok(2), b"al\0\0"),
        ],
    );
    writer.write_all(b"pha")?;
    gives(
        &rt,
        &mut files,
        &mut piece,
        &[(Call::Read, Ok(3), b"pha\0")],
    );
    drop(writer);
    // its end
    gives(
        &rt,
        &mut files,
        &mut piece,
        &[(Call::Read, Ok(0), b"pha\0")],
    );
    Ok(())
}
