//! Names of files as references.

ghost use Rattle.std.specs.Prelude.{◌≡◌, ◌++◌, IfOk, string_bytes};
ghost use Rattle.oscheck_reports.specs.Sarif.{scheme_of, uri_of};

use percent_encoding::{AsciiSet, NON_ALPHANUMERIC, ascii_set, utf8_percent_encode};
use std::alloc::{AllocError, Global};

/// The bytes that are escaped in a reference to a file: all but those that RFC 3986 reserves for nothing, and `/`.
pub(crate) const PATH: AsciiSet = ascii_set!(
    NON_ALPHANUMERIC
        .remove(b'-')
        .remove(b'.')
        .remove(b'_')
        .remove(b'~')
        .remove(b'/')
);

/// What stands before the name: a name from the root on is one of the scheme `file`.
fn scheme_of(name: &str) -> &'static str
    ensures { result.now ≡ scheme_of name.now }
{
    match name.as_bytes().first() {
        Some(b'/') => "file://",
        _ => "",
    }
}

/// The name of a file as a reference.
pub(crate) fn uri_of(alloc: Global, name: &str) -> Result<String, AllocError>
    ensures { IfOk result (λ uri. string_bytes uri ≡ uri_of name.now) }
{
    let mut uri = String::from_str(alloc, scheme_of(name))?;
    utf8_percent_encode(name, PATH).append_to(&mut uri)?;
    Ok(uri)
}
