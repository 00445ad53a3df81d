/// A place where a test may hold a worker before it runs a frame. It changes no meaning.
pub trait Gate: Sync {
    /// Called by a worker that is about to run a frame. It returns.
    fn at(&self, worker: u32, frame: u32);
}

/// The gate that holds nobody.
#[derive(Clone, Copy, Debug)]
pub struct NoGate;

impl Gate for NoGate {
    fn at(&self, _worker: u32, _frame: u32) {}
}
