use osrun_core_jobs::Job;

/// A stream of a run that is to be shown.
#[derive(Clone, Copy, Debug)]
pub struct StreamJob<'w> {
    pub job: Job<'w>,
    /// The stream's name in the program's text, with an index in brackets where it is one of an array.
    pub name: &'w str,
    /// From which position on.
    pub first: u64,
    /// How many positions at most.
    pub count: u64,
}
