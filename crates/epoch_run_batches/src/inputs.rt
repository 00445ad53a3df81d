ghost use Rattle.std.specs.Prelude.{◌≤◌, vec_len};

/// What an activation reads: the values, in order, and the least root of what is poison.
#[derive(Drop)]
pub struct Inputs {
    /// Places for values, of which the first ones hold those that were read.
    pub places: Vec<i32>,
    /// How many of the places hold a value that was read.
    pub count: usize,
    pub root: Option<u32>,
    pub ghost within: { count ≤ vec_len places },
}
