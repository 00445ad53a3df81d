ghost use Rattle.std.specs.Prelude.{◌≡◌, ℕ, ◌+◌, ◌-◌, ◌≤◌, length};
ghost use Rattle.oscheck_places.specs.Lines.{BeginsLine, EndsLine, IsOneLine, IsColumn, IsCharacterColumn, begun, characters, goes_on};

/// Where the line of a point begins.
pub fn line_start(text: &[u8], point: usize) -> usize
    requires { point ≤ length text.now }
    ensures within { result ≤ point }
    ensures one_line { IsOneLine text.now result point }
    ensures begins { BeginsLine text.now result }
{
    let mut start = point;
    while start > 0 && text[start - 1] != b'\n' {
        start -= 1;
    }
    start
}

/// Where the line of a point ends: at its line feed, or at the end of the text.
pub fn line_end(text: &[u8], point: usize) -> usize
    requires { point ≤ length text.now }
    ensures from { point ≤ result }
    ensures within { result ≤ length text.now }
    ensures one_line { IsOneLine text.now point result }
    ensures ends { EndsLine text.now result }
{
    let mut end = point;
    while end < text.len() && text[end] != b'\n' {
        end += 1;
    }
    end
}

/// The column of a point in its line, in bytes from 1 on.
pub fn column(text: &[u8], point: usize) -> usize
    requires { point ≤ length text.now }
    ensures { IsColumn text.now point result }
{
    let start = line_start(text, point);
    point - start + 1
}

/// Whether a byte goes on with a character of UTF-8 that began before it.
pub(crate) fn goes_on(byte: u8) -> bool
    ensures { result ≡ goes_on byte }
{
    (0x80..=0xbf).contains(&byte)
}

/// How many characters begin with a byte.
fn begun(byte: u8) -> usize
    ensures exact { result ≡ begun byte }
    ensures few { result ≤ 1 }
{
    if goes_on(byte) { 0 } else { 1 }
}

/// How many characters begin among some bytes.
fn characters(bytes: &[u8]) -> usize
    ensures exact { result ≡ characters bytes.now }
    ensures few { result ≤ length bytes.now }
{
    let mut count: usize = 0;
    for byte in bytes {
        count += begun(*byte);
    }
    count
}

/// The column of a point in its line, in characters from 1 on. Of a line that isn't UTF-8 it counts each byte that goes on with none.
pub fn character_column(text: &[u8], point: usize) -> usize
    requires { point ≤ length text.now }
    ensures { IsCharacterColumn text.now point result }
{
    let start = line_start(text, point);
    characters(&text[start..point]) + 1
}
