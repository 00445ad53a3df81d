use os_io::List;

/// Activations that one worker runs one after the other, by number, and the batches in whose slots it looks, by their place in the list of
/// batches. It waits for these.
#[derive(Debug, Drop)]
pub struct Batch {
    pub numbers: List<u32>,
    pub from: List<u32>,
}
