ghost use Rattle.std.specs.Prelude.{◌≡◌, ◌-◌, ◌<◌, ◌≤◌, drop, length, take};
ghost use Rattle.stream_match_layouts.specs.Layout.{IsLayout};
ghost use Rattle.stream_match_layouts.specs.Spans.{frame_count, spans_of, start_of};

use crate::layout::Layout;
use crate::span::Span;

impl Layout {
    /// How many activations there are.
    pub fn frames(&self) -> usize
        requires { 1 ≤ length self.now.starts }
        ensures { result ≡ frame_count self.now }
    {
        self.starts.len() - 1
    }

    /// The spans of an activation, in clause order.
    pub fn spans_of(&self, frame: usize) -> &[Span]
        requires layout { IsLayout self.now }
        requires exists { frame < frame_count self.now }
        ensures { result.now ≡ spans_of self.now frame }
    {
        let first = self.start(frame);
        let end = self.start(frame + 1);
        self.part(first, end)
    }

    /// Where the spans of an activation begin.
    fn start(&self, frame: usize) -> usize
        requires { frame < length self.now.starts }
        ensures { result ≡ start_of self.now frame }
    {
        self.starts.as_slice()[frame] as usize
    }

    /// The spans from one number to another.
    fn part(&self, first: usize, end: usize) -> &[Span]
        requires ordered { first ≤ end }
        requires within { end ≤ length self.now.spans }
        ensures { result.now ≡ take (end - first) (drop first self.now.spans) }
    {
        &self.spans.as_slice()[first..end]
    }
}
