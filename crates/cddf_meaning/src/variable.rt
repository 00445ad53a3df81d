use os_io::List;

/// What a name stands for.
#[derive(Debug, Drop)]
pub enum Variable {
    /// A constant of the file, with its value.
    Constant(i32),
    /// A function of the file, with its place among the items of the file.
    Function(usize),
    /// A scalar, with its value.
    Scalar(i32),
    /// A local array, with its elements.
    Array(List<i32>),
    /// A window of the control program, with its horizon.
    Window(u32),
    /// A stream or an array of streams, by the first number and how many they are.
    Stream { first: u32, count: u32 },
    /// In a task's body the item with this number, in the order of the clauses.
    Item(usize),
}

/// A declaration: a name and what it stands for.
#[derive(Debug, Drop)]
pub struct Binding {
    /// The number that the lexer gave the name's spelling.
    pub id: u32,
    pub variable: Variable,
    /// Whether it is of the type `unsigned`: a constant, a function's result, a scalar, or the elements of an array, a window, a
    /// stream or an item.
    pub unsigned: bool,
}
