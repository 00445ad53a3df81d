use osrun_core_jobs::Job;

/// An activation of a run that is to be explained.
#[derive(Clone, Copy, Debug)]
pub struct ExplainJob<'w> {
    pub job: Job<'w>,
    /// The number of the activation, in the order in which `main` creates them, from 0 on. There may be no such activation.
    pub activation: u32,
}
