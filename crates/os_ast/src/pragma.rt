use crate::expr::{Expr, Index, Mark, Name, Target};
use crate::stmt::Stmt;
use os_io::List;

/// The `>>` or `<<` of an item, with the window or the scalar after it. The mark is the operator's.
#[derive(Drop)]
pub struct Join {
    pub mark: Mark,
    pub name: Name,
    pub burst: Option<Index>,
}

/// What a task reads from a stream or writes to it.
#[derive(Drop)]
pub struct ClauseItem {
    pub stream: Target,
    pub window: Option<Join>,
}

#[derive(Drop)]
pub enum ClauseKind {
    Input(List<ClauseItem>),
    Output(List<ClauseItem>),
    Firstprivate(List<Name>),
}

/// A clause of a task, and whether a comma stands before it.
#[derive(Drop)]
pub struct Clause {
    pub comma: bool,
    pub kind: ClauseKind,
}

/// A task. The mark is its PragmaStart.
#[cycle(stmt)]
#[derive(Drop)]
pub struct TaskSite {
    pub mark: Mark,
    pub clauses: List<Clause>,
    pub body: Stmt,
}

/// A tick. The mark is its PragmaStart, the arrow its `>>`.
#[derive(Drop)]
pub struct TickSite {
    pub mark: Mark,
    pub stream: Target,
    pub arrow: Mark,
    pub amount: Expr,
}
