/// How a statement is left, and so what comes behind it.
#[derive(Clone, Copy, Debug, PartialEq, Eq)]
pub enum Flow {
    GoesOn,
    Breaks,
    Continues,
    Returns(i32),
}
