use crate::stream_name::StreamName;
use flow_core_laws::{Activation, Ends};
use stream_match_layouts::Layout;

/// A run that is told of in sentences.
#[derive(Clone, Copy)]
pub struct ToldRun<'a> {
    /// The text of its program.
    pub text: &'a [u8],
    /// The names of its streams, by where they stand in the text.
    pub names: &'a [StreamName],
    /// The line of each activation's task.
    pub lines: &'a [u32],
    /// The activations that `main` created.
    pub activations: &'a [Activation],
    /// Which positions of the streams they read and write.
    pub layout: &'a Layout,
    /// What became of them.
    pub ends: &'a Ends,
}
