ghost use Rattle.std.specs.Prelude.{◌≡◌, ◌++◌, IfOk, OnOk};
ghost use Rattle.osview_graph.specs.Drawing.{IsDrawn, run_of, shown_of};
ghost use Rattle.osview_graph.specs.Graph.{activation_graph, graph_of, stream_graph};

use crate::arrows::add_arrows;
use crate::drawn::{Drawn, GraphChoice};
use crate::links::{Range, add_shown};
use crate::streams::add_ellipses;
use crate::tasks::add_boxes;
use os_io::Memory;
use osview_text::Text;
use std::alloc::Global;

/// Adds the graph of tasks and streams.
fn add_streams(alloc: Global, told: &mut Text, drawn: &Drawn<'_>) -> Result<(), Memory>
    requires { IsDrawn drawn.now }
    ensures { OnOk result (told.new ≡ told.old ++ stream_graph (run_of drawn.now)) }
{
    told.add(b"digraph streams {\n  node [fontname=\"sans-serif\"];\n")?;
    add_boxes(alloc, told, drawn)?;
    add_ellipses(alloc, told, drawn)?;
    add_arrows(alloc, told, drawn)?;
    told.add(b"}\n")
}

/// Adds the graph of some activations.
fn add_activations(told: &mut Text, drawn: &Drawn<'_>, shown: Range) -> Result<(), Memory>
    requires { IsDrawn drawn.now }
    ensures { OnOk result (told.new ≡ told.old ++ activation_graph (run_of drawn.now) (shown_of shown)) }
{
    told.add(b"digraph activations {\n  node [shape=box, fontname=\"sans-serif\"];\n")?;
    told.add(b"  input [shape=ellipse];\n")?;
    add_shown(told, drawn, shown)?;
    told.add(b"}\n")
}

/// The graph of a run as Graphviz text: that of its tasks and streams, or that of some of its activations.
#[tactic(auto, unfolding(crate::specs::Graph::graph_of))]
pub fn graph_text(alloc: Global, drawn: &Drawn<'_>, view: GraphChoice) -> Result<Text, Memory>
    requires { IsDrawn drawn.now }
    ensures { IfOk result (λ told. told ≡ graph_of (run_of drawn.now) view) }
{
    let mut told = Text::new(alloc);
    match view {
        GraphChoice::Streams => add_streams(alloc, &mut told, drawn)?,
        GraphChoice::Activations { first, end } => {
            add_activations(&mut told, drawn, Range { first, end })?
        }
    }
    Ok(told)
}
