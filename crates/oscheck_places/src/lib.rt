//! Where something stands in a text, and how that is shown to who wrote the text.
//!
//! A point is a number of bytes from the front of the text; a line is ended by a line feed or by the end of the text.
//! `line_start`, `line_end`, `column` and `character_column` are pinned by what stands round the point. A `Spot` is some bytes of one line;
//! `excerpt` is that line with a mark under them. `fault_spot` looks for the bytes of a text's first fault: what it finds
//! stands in the line that the lexer told, and the text before it has tokens.
#![tactic(auto)]

mod faults;
mod lines;
mod showing;
mod spot;

pub use faults::fault_spot;
pub use lines::{character_column, column, line_end, line_start};
pub use showing::excerpt;
pub use spot::Spot;
