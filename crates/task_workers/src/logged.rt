use flow_core::Ends;
use os_io::List;

/// What a run came to, and who ran what.
#[derive(Debug, Drop)]
pub struct Logged {
    pub ends: Ends,
    /// The frames that each worker ran, in its order: a list for each worker, from worker 0 on.
    pub lists: List<List<u32>>,
}
