//! Traces as text: which frames each worker of a run ran, in its order, a line for each worker.
//!
//! `print_trace` writes the lists of a run's workers, and `read_trace` reads them again, or tells the first line that isn't one of a
//! trace. The form is a definition (`specs/Trace.antt`): a line is `worker`, the worker's number and the numbers of its frames, each
//! behind a space. It knows nothing of plans and runs: which frames there are, and in which order they can run, is asked elsewhere.
//!
//! `laws` say that a text is the trace of one list of lists at most, that it isn't one where a line is told, and that what was written
//! is read again.
#![tactic(auto)]

mod fields;
pub mod laws;
mod lines;
mod printing;
mod reading;
mod trace_error;

pub use printing::print_trace;
pub use reading::read_trace;
pub use trace_error::TraceError;
