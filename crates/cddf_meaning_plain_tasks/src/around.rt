ghost use Rattle.std.specs.Prelude.{◌≡◌};
ghost use Rattle.cddf_meaning_plain_tasks.specs.Arounds.{around_of};

use crate::sites::Sites;
use os_ast::Item;

/// What is round a body: the items of the file before it, and for the control program its tasks.
#[derive(Clone, Copy)]
pub struct Around<'p> {
    /// The items of the file before it.
    pub file: &'p [Item],
    /// The tasks of the program, where the body is the control program.
    pub control: Option<&'p Sites>,
}

impl<'p> Around<'p> {
    /// Whether the body is the control program.
    pub fn is_control(&self) -> bool
        ensures { result ≡ (around_of self.now).is_control }
    {
        self.control.is_some()
    }
}
