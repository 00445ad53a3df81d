use crate::claim::Claim;
use os_io::List;

/// One creation of a task by the control program.
#[derive(Debug, Drop)]
pub struct Activation {
    /// Which task of the program it is.
    pub site: u32,
    /// The scalars that were captured when it was created.
    pub captured: List<i32>,
    /// Its windows, in the order of the clause items.
    pub claims: List<Claim>,
}
