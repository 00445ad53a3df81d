ghost use Rattle.std.specs.Prelude.{◌≡◌, IfSome, None, length, slice_index_or};
ghost use Rattle.epoch_run_batches.specs.Found.{AreAt, held_on, held_over};

use flow_core_laws::Elem;
use os_io::List;
use stream_match_layouts::Span;

/// Elements of streams: of each stream from a position on, each of them where it is there.
#[derive(Drop)]
pub struct Streams {
    pub elements: List<List<Option<Elem>>>,
    /// For each stream the position of its first element here.
    pub firsts: List<u64>,
}

impl Streams {
    /// The element at a position of a stream, if it is here.
    pub fn find(&self, stream: u32, position: u64) -> Option<Elem>
        requires { length self.now.firsts ≡ length self.now.elements }
        ensures { result ≡ held_on self.now stream position }
    {
        let stream = stream as usize;
        if stream >= self.elements.len() {
            return None;
        }
        let first = self.firsts.as_slice()[stream];
        if position < first {
            return None;
        }
        element_at(
            self.elements.as_slice()[stream].as_slice(),
            position - first,
        )
    }

    /// The elements at all positions that a span covers, if the list of its stream has a place for each of them.
    pub fn find_all(&self, span: &Span) -> Option<&[Option<Elem>]>
        requires { length self.now.firsts ≡ length self.now.elements }
        ensures { IfSome result (λ elements. elements.now ≡ held_over self.now span.now) }
    {
        let stream = span.stream as usize;
        if stream >= self.elements.len() {
            return None;
        }
        let first = self.firsts.as_slice()[stream];
        if span.first < first {
            return None;
        }
        let elements = self.elements.as_slice()[stream].as_slice();
        elements_at(elements, span.first - first, span.count)
    }
}

/// The element at a place of a list, if it is there.
fn element_at(elements: &[Option<Elem>], place: u64) -> Option<Elem>
    ensures { result ≡ slice_index_or elements.now place None }
{
    if place >= elements.len() as u64 {
        return None;
    }
    elements[place as usize]
}

/// The elements at `count` places of a list from a place on, if it has all these places.
fn elements_at(elements: &[Option<Elem>], place: u64, count: u32) -> Option<&[Option<Elem>]>
    ensures { IfSome result (λ are. AreAt elements.now place count are.now) }
{
    let held = elements.len() as u64;
    if place > held || u64::from(count) > held - place {
        return None;
    }
    let place = place as usize;
    Some(&elements[place..place + count as usize])
}
