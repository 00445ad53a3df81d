//! Where a part of a lexeme ends: the first point from a given one on at which a test holds.
ghost use Rattle.std.specs.Prelude.{◌≡◌, ◌<◌, ◌≤◌, length};
ghost use Rattle.os_lexer.specs.Reading.{run_end, blanks_end, line_end, comment_end, ends_line, is_joined, closes};

use crate::bytes::{byte_at, is_blank, is_word_byte};

/// The end of the letters, digits and `_` from a point on.
#[tactic(auto, using(crate::proofs::Ends::run_ends))]
pub fn run_end(bytes: &[u8], from: usize) -> usize
    requires { from ≤ length bytes.now }
    ensures value { result ≡ run_end bytes.now from }
    ensures from { from ≤ result }
    ensures within { result ≤ length bytes.now }
{
    for point in from..bytes.len() {
        if !is_word_byte(bytes[point]) {
            return point;
        }
    }
    bytes.len()
}

/// The end of the spaces and tabs from a point on.
#[tactic(auto, using(crate::proofs::Ends::blanks_ends))]
pub fn blanks_end(bytes: &[u8], from: usize) -> usize
    requires { from ≤ length bytes.now }
    ensures value { result ≡ blanks_end bytes.now from }
    ensures from { from ≤ result }
    ensures within { result ≤ length bytes.now }
{
    for point in from..bytes.len() {
        if !is_blank(bytes[point]) {
            return point;
        }
    }
    bytes.len()
}

/// The end of the line, where a line feed stands that is no joined line's, or the text ends.
#[tactic(auto, using(crate::proofs::Ends::line_ends))]
pub(crate) fn line_end(bytes: &[u8], from: usize) -> usize
    requires low { 2 ≤ from }
    requires within { from ≤ length bytes.now }
    ensures value { result ≡ line_end bytes.now from }
    ensures from { from ≤ result }
    ensures within { result ≤ length bytes.now }
{
    for point in from..bytes.len() {
        if ends_line(bytes, point) {
            return point;
        }
    }
    bytes.len()
}

/// Whether a line feed that is no joined line's stands at the point.
fn ends_line(bytes: &[u8], point: usize) -> bool
    requires low { 2 ≤ point }
    requires within { point ≤ length bytes.now }
    ensures { result ≡ ends_line bytes.now point }
{
    byte_at(bytes, point) == b'\n' && !is_joined(bytes, point)
}

/// Whether a line feed at the point would be that of a joined line.
fn is_joined(bytes: &[u8], point: usize) -> bool
    requires low { 2 ≤ point }
    requires within { point ≤ length bytes.now }
    ensures { result ≡ is_joined bytes.now point }
{
    let before = byte_at(bytes, point - 1);
    before == b'\\' || (before == b'\r' && byte_at(bytes, point - 2) == b'\\')
}

/// The point of the next `*/`, or the end of the text.
#[tactic(auto, using(crate::proofs::Ends::comment_ends))]
pub fn comment_end(bytes: &[u8], from: usize) -> usize
    requires { from ≤ length bytes.now }
    ensures value { result ≡ comment_end bytes.now from }
    ensures from { from ≤ result }
    ensures within { result ≤ length bytes.now }
{
    for point in from..bytes.len() {
        if closes(bytes, point) {
            return point;
        }
    }
    bytes.len()
}

/// Whether a `*/` stands at the point.
fn closes(bytes: &[u8], point: usize) -> bool
    requires { point < length bytes.now }
    ensures { result ≡ closes bytes.now point }
{
    bytes[point] == b'*' && byte_at(bytes, point + 1) == b'/'
}
