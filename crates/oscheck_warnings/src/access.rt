/// Where a statement stands.
#[derive(Clone, Copy)]
pub(crate) struct Site {
    /// The place of the pragma of the task whose body it stands in, or 0 outside tasks: no task stands before `main`.
    pub(crate) task: u32,
    /// Whether a loop of that body is round it.
    pub(crate) looped: bool,
}

/// What an access does with a scalar.
#[derive(Clone, Copy)]
pub(crate) enum Effect {
    /// It uses the value.
    Read,
    /// It sets the scalar. A change that uses the old value, as `x += 1` and `x++`, is not taken for a read.
    Change,
}

/// A name without an index, by its place among the tokens, in an expression or as the target of a change.
#[derive(Clone, Copy)]
pub(crate) struct Access {
    pub(crate) site: Site,
    pub(crate) place: u32,
    pub(crate) effect: Effect,
}

impl Site {
    ghost use Rattle.std.specs.Prelude.{◌≡◌};
    ghost use Rattle.oscheck_warnings.specs.Accesses.{in_task, in_loop, outside};

    /// The site outside of tasks.
    pub(crate) fn outside() -> Site
        ensures { result ≡ outside }
    {
        Site {
            task: 0,
            looped: false,
        }
    }

    /// The site in the body of a task, in no loop of it.
    pub(crate) fn in_task(place: u32) -> Site
        ensures { result ≡ in_task place }
    {
        Site {
            task: place,
            looped: false,
        }
    }

    /// The same site with a loop round it.
    pub(crate) fn in_loop(self) -> Site
        ensures { result ≡ in_loop self }
    {
        Site {
            task: self.task,
            looped: true,
        }
    }
}
