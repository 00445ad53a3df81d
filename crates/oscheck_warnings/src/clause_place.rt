/// Where in a program a token stands, as far as the items of clauses go.
#[derive(Clone, Copy, Debug, PartialEq, Eq)]
pub enum ClausePlace {
    /// In no pragma's line.
    Outside,
    /// In a pragma's line and outside brackets: the number of the last name before it there, or of `omp`, with which each line begins.
    Line(u32),
    /// Where an item of a clause begins: the number of the clause's word.
    Start(u32),
    /// Further on in an item: the number of the clause's word, and how many brackets of the item are open.
    Within(u32, usize),
}
