use cddf_meaning::TypedName;
use os_ast::TaskSite;
use os_io::List;

/// A task of the control program, with the names that its body sees of the control program.
#[derive(Drop)]
pub struct FoundTask<'p> {
    /// Its pragma, with its body.
    pub site: &'p TaskSite,
    /// The names of the scalars that it captures, in the order of their declarations.
    pub captured: List<TypedName>,
    /// The names of its items, in the order of its clauses.
    pub items: List<TypedName>,
}
