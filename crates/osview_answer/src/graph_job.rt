use osrun_core_jobs::Job;
use osview_graph::GraphChoice;

/// A run whose graph is to be shown.
#[derive(Clone, Copy, Debug)]
pub struct GraphJob<'w> {
    pub job: Job<'w>,
    /// Which graph of the run.
    pub view: GraphChoice,
}
