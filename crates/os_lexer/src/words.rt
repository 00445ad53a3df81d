//! The words that have a meaning of their own: keywords, and the names with fixed numbers.
ghost use Rattle.std.specs.Prelude.{◌≡◌, bytes_eq, position};
ghost use Rattle.os_lexer.specs.Keywords.{key_of};
ghost use Rattle.os_lexer.specs.Names.{fixed_names};
ghost use Rattle.os_lexer.specs.Reading.{key_in, index_in};

use crate::names::FIRST_OWN_ID;
use crate::token::Key;

/// Each keyword with its key.
static KEYWORDS: [(&[u8], Key); 45] = [
    (b"int", Key::Int),
    (b"const", Key::Const),
    (b"void", Key::Void),
    (b"if", Key::If),
    (b"else", Key::Else),
    (b"while", Key::While),
    (b"for", Key::For),
    (b"break", Key::Break),
    (b"continue", Key::Continue),
    (b"return", Key::Return),
    (b"unsigned", Key::Unsigned),
    (b"__attribute__", Key::Attribute),
    (b"auto", Key::Other),
    (b"case", Key::Other),
    (b"char", Key::Other),
    (b"default", Key::Other),
    (b"do", Key::Other),
    (b"double", Key::Other),
    (b"enum", Key::Other),
    (b"extern", Key::Other),
    (b"float", Key::Other),
    (b"goto", Key::Other),
    (b"inline", Key::Other),
    (b"long", Key::Other),
    (b"register", Key::Other),
    (b"restrict", Key::Other),
    (b"short", Key::Other),
    (b"signed", Key::Other),
    (b"sizeof", Key::Other),
    (b"static", Key::Other),
    (b"struct", Key::Other),
    (b"switch", Key::Other),
    (b"typedef", Key::Other),
    (b"union", Key::Other),
    (b"volatile", Key::Other),
    (b"_Alignas", Key::Other),
    (b"_Alignof", Key::Other),
    (b"_Atomic", Key::Other),
    (b"_Bool", Key::Other),
    (b"_Complex", Key::Other),
    (b"_Generic", Key::Other),
    (b"_Imaginary", Key::Other),
    (b"_Noreturn", Key::Other),
    (b"_Static_assert", Key::Other),
    (b"_Thread_local", Key::Other),
];

/// The names that have the numbers 0 to 11.
static FIXED_NAMES: [&[u8]; FIRST_OWN_ID as usize] = [
    b"omp",
    b"task",
    b"tick",
    b"taskwait",
    b"input",
    b"output",
    b"firstprivate",
    b"stream",
    b"main",
    b"osin",
    b"osout",
    b"osin_len",
];

/// The key of a word that is a keyword.
pub(crate) fn key_of(word: &[u8]) -> Option<Key>
    ensures { result ≡ key_of word.now }
{
    key_in(&KEYWORDS, word)
}

/// The number of a name that has a fixed one.
pub(crate) fn fixed_number(name: &[u8]) -> Option<usize>
    ensures { result ≡ position (bytes_eq name.now) fixed_names }
{
    index_in(&FIXED_NAMES, name)
}

/// The key that stands beside a word in a table.
fn key_in(table: &[(&[u8], Key)], word: &[u8]) -> Option<Key>
    ensures { result ≡ key_in table.now word.now }
{
    for (spelling, key) in table {
        if word == *spelling {
            return Some(*key);
        }
    }
    None
}

/// The index of a name in a table.
fn index_in(table: &[&[u8]], name: &[u8]) -> Option<usize>
    ensures { result ≡ index_in table.now name.now }
{
    for (index, spelling) in table.iter().enumerate() {
        if name == *spelling {
            return Some(index);
        }
    }
    None
}
