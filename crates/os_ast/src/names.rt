/// Whose body a statement stands in.
#[derive(Clone, Copy, Debug, PartialEq, Eq)]
pub enum Owner {
    OfFunction,
    OfMain,
    OfTask,
}

/// Which way the elements of an item go: an input item is read, an output item is written.
#[derive(Clone, Copy, Debug, PartialEq, Eq)]
pub enum Direction {
    Reads,
    Writes,
}

/// What a declaration declares.
#[derive(Clone, Copy, Debug, PartialEq, Eq)]
pub enum Entity {
    /// A constant, with its value.
    Constant(i32),
    /// A function, with its number in the order of the text and how many parameters it has.
    Function(u32, u32),
    /// A scalar of a function or of a task, with its slot.
    Scalar(u32),
    /// A scalar of the control program, with its slot.
    Control(u32),
    /// `osin_len`
    InputLength,
    /// A local array, with its first slot and its size.
    Array(u32, u32),
    /// A window, with its slot.
    Window(u32),
    /// A stream, with its number.
    Stream(u32),
    /// An array of streams, with the first number and how many they are.
    Streams(u32, u32),
    /// In a task's body an item of one element, with its number.
    Element(u32, Direction),
    /// In a task's body an item with a window, with its number.
    View(u32, Direction),
}

/// A declaration, how many scopes are open where it stands, and whether what it declares is of the type `unsigned`: the
/// constant, the function's result, the variable, the elements of the window or of the stream.
#[derive(Clone, Copy, Debug, PartialEq, Eq)]
pub struct Entry {
    pub id: u32,
    pub depth: u32,
    pub entity: Entity,
    pub unsigned: bool,
}

/// What a name token means. Slots are those of the function, task or main in which it stands.
#[derive(Clone, Copy, Debug, PartialEq, Eq)]
pub enum What {
    /// The constant's value.
    Constant(i32),
    /// The function's number, in the order of the text.
    Function(u32),
    /// The scalar's slot.
    Scalar(u32),
    /// A local array, by its first slot and how many slots it has.
    Array { first: u32, size: u32 },
    /// The window's slot.
    Window(u32),
    /// A stream or an array of streams, by the first number and how many they are.
    Stream { first: u32, count: u32 },
    /// The task's item with this number, where its name stands for one element.
    Element(u32),
    /// The task's item with this number, where its name is that of a window.
    View(u32),
}

/// A name token, by its place among the tokens, what it means, and whether that is of the type `unsigned`: a constant, a
/// function's result, a variable, or elements.
#[derive(Clone, Copy, Debug, PartialEq, Eq)]
pub struct Resolved {
    pub place: u32,
    pub what: What,
    pub unsigned: bool,
}

/// Whether a name stands with an index.
#[derive(Clone, Copy, Debug, PartialEq, Eq)]
pub enum Shape {
    Bare,
    Indexed,
}

/// What a declarator declares. A size is there where it is a number or a constant within the limit.
#[derive(Clone, Copy, Debug, PartialEq, Eq)]
pub enum Form {
    Scalar,
    Array(Option<u32>),
    Window,
    Stream,
    Streams(Option<u32>),
}

/// Where a name stands, with an index or without.
#[derive(Clone, Copy, Debug, PartialEq, Eq)]
pub enum Role {
    /// In an expression.
    Value,
    /// As the target of a change.
    Changed,
    /// As the stream of an item or of a tick.
    Flow(Direction),
}

/// How a name is used.
#[derive(Clone, Copy, Debug, PartialEq, Eq)]
pub enum Use {
    Place(Role, Shape),
    /// As a function, with this many arguments.
    Called(usize),
    /// Behind the `>>` or `<<` of an item, with a burst or without.
    Joined(Shape),
    /// In a `firstprivate` clause.
    Private,
}
