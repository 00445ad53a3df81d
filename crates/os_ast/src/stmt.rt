use crate::expr::{Binary, Call, Expr, Index, Mark, Name, Target};
use crate::pragma::{TaskSite, TickSite};
use crate::ty::Ty;
use os_io::List;

/// `=`, or the assigning form of an operator, as `+=`.
#[derive(Clone, Copy, Debug, PartialEq, Eq)]
pub enum Assign {
    Plain,
    With(Binary),
}

/// `++` or `--`.
#[derive(Clone, Copy, Debug, PartialEq, Eq)]
pub enum Step {
    Up,
    Down,
}

/// A change of a target. The marks are those of the operators.
#[derive(Drop)]
pub enum Change {
    Set(Target, Assign, Mark, Expr),
    /// `x++`
    After(Target, Step, Mark),
    /// `++x`
    Before(Target, Step, Mark),
}

/// A name that is declared: a scalar, perhaps with a first value, a window or an array, or a stream.
#[derive(Drop)]
pub struct Declarator {
    pub name: Name,
    pub size: Option<Index>,
    pub stream: bool,
    pub first: Option<Expr>,
}

/// What stands before the first `;` in the head of a `for`.
#[derive(Drop)]
pub enum Start {
    Empty,
    Declare(Ty, List<Declarator>),
    Change(Change),
}

/// The head of a `for`.
#[derive(Drop)]
pub struct Head {
    pub start: Start,
    pub test: Option<Expr>,
    pub step: Option<Change>,
}

/// A statement, or a declaration in a block. The marks are those of the words.
#[cycle(stmt)]
#[derive(Drop)]
pub enum Stmt {
    /// `;`
    Empty,
    Block(List<Stmt>),
    Declare(Ty, List<Declarator>),
    Change(Change),
    Call(Call),
    /// The condition, the first branch, and the one after `else`.
    If(Expr, Box<Stmt>, Option<Box<Stmt>>),
    While(Expr, Box<Stmt>),
    For(Box<Head>, Box<Stmt>),
    Break(Mark),
    Continue(Mark),
    Return(Mark, Expr),
    Task(Box<TaskSite>),
    Tick(Box<TickSite>),
    /// The mark is the PragmaStart.
    Taskwait(Mark),
}
