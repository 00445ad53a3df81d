//! The words of the call, as bytes: a name of a file needn't be text.

use os_io::Memory;
use std::alloc::Global;
use std::env::FillError;
use std::rt::Env;

/// How many bytes most words have at most.
const SHORT: usize = 4_096;

/// How many bytes a word has at most, as Linux hands it on.
const LONG: usize = 131_072;

/// What was found where a word was asked for.
#[derive(Drop)]
enum Asked {
    Word(Vec<u8>),
    TooLong,
    NoMore,
}

/// Asks for a word of at most `size` bytes.
fn ask(env: &impl Env, alloc: Global, number: usize, size: usize) -> Result<Asked, Memory> {
    let mut bytes = vec![in alloc; 0u8; size]?;
    match env.arg(number, &mut bytes) {
        Ok(len) => {
            bytes.truncate(len);
            Ok(Asked::Word(bytes))
        }
        Err(FillError::TooLong) => Ok(Asked::TooLong),
        Err(FillError::NotPresent) => Ok(Asked::NoMore),
    }
}

/// A word of the call by its number, the first one behind the program's name by 1; none where the call has fewer.
pub(crate) fn word_at(
    env: &impl Env,
    alloc: Global,
    number: usize,
) -> Result<Option<Vec<u8>>, Memory> {
    match ask(env, alloc, number, SHORT)? {
        Asked::Word(bytes) => Ok(Some(bytes)),
        Asked::NoMore => Ok(None),
        Asked::TooLong => long_word(env, alloc, number),
    }
}

/// The bytes of a word that is long; none where there is no such word.
fn long_word(env: &impl Env, alloc: Global, number: usize) -> Result<Option<Vec<u8>>, Memory> {
    match ask(env, alloc, number, LONG)? {
        Asked::Word(bytes) => Ok(Some(bytes)),
        Asked::NoMore => Ok(None),
        Asked::TooLong => Err(Memory),
    }
}
