//! What the caller gives a program: words, and standard streams.

use std::os::fd::AsRawFd;
use std::rt::{Env, Files};
use std::{env, fs, io};

/// How many standard streams there are: their descriptors are 0, 1 and 2.
const STANDARD_STREAMS: i32 = 3;

/// What takes the place of a standard stream that the caller closed, if there is one. Else the next file that is opened would
/// become that stream, and a name such as `/dev/stdin` would mean this file. None where all three streams are open, or `/dev/null` can't be
/// opened. A program calls it once for each standard stream, before it opens a file, and keeps what it gets to its end.
pub fn stand_in<R: Files>(rt: &R) -> Option<R::File>
where
    R::File: AsRawFd,
{
    let file = fs::open(rt, "/dev/null").ok()?;
    (file.as_raw_fd() < STANDARD_STREAMS).then_some(file)
}

/// The words of the call behind the program's name. An error where one of them isn't text, and one of the kind `OutOfMemory` where memory is
/// wanting.
pub fn arguments(rt: &(impl Env + AllocGlobal)) -> io::Result<Vec<String>> {
    let mut words = env::args(rt)?;
    let _ = words.next();
    Ok(words.collect(rt.alloc())?)
}
