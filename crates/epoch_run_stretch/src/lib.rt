//! A stretch of activations, run in batches.
//!
//! `Cut::batches` cuts the activations of a layout that come after those that ran into batches. `run_stretch` runs them on several workers over one
//! table (`epoch_run_batches_table`), and puts what they came to after what is held: the ends of the activations that ran, and what the streams hold
//! of what these wrote. It does so where all is there: an end for each activation, and an element for each position that these write. Else what is held
//! stays as it was, and the stretch is still to run.
//!
//! Where each batch goes on where the one before it ends and nothing is missing, what they came to is appended as it stands, with one copy. Else each
//! end and each element is put in its place, and then it is seen whether all of them are there.
//!
//! Nothing has to be known of the batches but that each end and each element is what the run means (`AreAllMeant` of `epoch_run_batches`): how
//! they were cut, and by whom they were run, changes nothing. Where all are there, they are all of what the activations mean (`HoldAll`).
#![tactic(auto)]

mod consecutive;
mod cut;
mod ends;
mod held;
mod streams;
mod stretch;

pub use cut::Cut;
pub use held::gather;
pub use stretch::run_stretch;
