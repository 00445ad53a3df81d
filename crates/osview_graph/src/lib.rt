//! The graph of a run as Graphviz text.
//!
//! `graph_text` takes the activations of a run with their layout and their ends, the lines of tasks and the names of streams. It
//! gives the graph of tasks and streams: a box for each task, an ellipse for each stream, an arrow for each item of a task's
//! clauses. Or it gives that of some activations: a box for each, and an arrow from each activation that writes what one of them
//! reads. It knows nothing of files.
//!
//! Its promise is the definitions `stream_graph` and `activation_graph` in `specs/Graph.antt`, over any list of activations.
#![tactic(auto)]

mod arrows;
mod drawn;
mod ending;
mod graph;
mod labels;
mod links;
mod streams;
mod tables;
mod tally;
mod tasks;
mod uses;

pub use drawn::{Drawn, GraphChoice};
pub use graph::graph_text;
