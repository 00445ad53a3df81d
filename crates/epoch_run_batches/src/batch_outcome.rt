use crate::ended::Ended;
use crate::streams::Streams;
use os_io::List;

/// What a batch came to: the ends of those of its activations that ran, and the elements that they wrote.
#[derive(Drop)]
pub struct BatchOutcome {
    pub ended: List<Ended>,
    pub wrote: Streams,
}
