/// The target of a change, with its index checked.
#[derive(Clone, Copy, Debug, PartialEq, Eq)]
pub enum Aim {
    /// A scalar, or an item's one element, by its name.
    Name(u32),
    /// An element of a local array or of a view, by its name and its place.
    Element(u32, usize),
}
