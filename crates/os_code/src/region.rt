//! Where the region of a unit ends.

ghost use Rattle.std.specs.Prelude.{◌≡◌, ℕ, ◌<◌, ◌≤◌, true, false, length, slice_index_or};

/// The end of the region that begins at a unit's start: the next place at which a unit starts, or the end of the code. The places at which units
/// start are marked.
pub fn end_of_region(marks: &[bool], start: usize) -> usize
    requires { start < length marks.now }
    ensures after { start < result }
    ensures inside { result ≤ length marks.now }
    ensures none_between { (place : ℕ) → start < place → place < result → slice_index_or marks.now place false ≡ false }
    ensures ends { result < length marks.now → slice_index_or marks.now result false ≡ true }
{
    let mut end = start + 1;
    while end < marks.len() && !marks[end] {
        end += 1;
    }
    end
}
