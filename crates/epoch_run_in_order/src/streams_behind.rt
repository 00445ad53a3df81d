//! The streams behind activations that all have ended, from what is kept of these.

ghost use Rattle.std.specs.Prelude.{◌≡◌, ◌-◌, ◌∷◌, ◌++◌, [], IfOk, OnOk, length, map};
ghost use Rattle.std.specs.List.{range_with_len};
ghost use Rattle.stream_match.specs.Kept.{kept_of};
ghost use Rattle.stream_match_layouts.specs.Layout.{IsLayout};
ghost use Rattle.epoch_run_in_order.specs.Behind.{AreBehind, blank_on, first_on, with_all_kept, with_element, with_kept};

use crate::streams::Streams;
use epoch_run_carrying::cursor_of;
use flow_core_laws::Elem;
use os_io::{List, Memory};
use std::alloc::Global;
use stream_match::Kept;
use stream_match_layouts::Layout;

/// The streams behind the activations of a layout: the output as it is, and of each other stream what is kept of it from its read
/// cursor on.
pub(crate) fn streams_behind(
    alloc: Global,
    layout: &Layout,
    output: List<Option<Elem>>,
    kept: &[Kept],
) -> Result<Streams, Memory>
    requires { IsLayout layout.now }
    ensures { IfOk result (AreBehind layout.now output (map kept_of kept.now)) }
{
    let firsts = firsts_behind(alloc, layout)?;
    let mut elements = blanks(alloc, layout, output)?;
    put_all(&mut elements, firsts.as_slice(), kept);
    Ok(Streams { elements, firsts })
}

/// For each stream the position of the first element to be held.
fn firsts_behind(alloc: Global, layout: &Layout) -> Result<List<u64>, Memory>
    ensures { IfOk result (λ firsts. firsts ≡ map (first_on layout.now) (range_with_len 0 (length layout.now.writers))) }
{
    let count = layout.writers.len();
    let mut firsts = List::with_capacity(alloc, count)?;
    for stream in 0..count {
        firsts.push(first_on(layout, stream))?;
    }
    Ok(firsts)
}

/// The position of the first element of a stream to be held: the read cursor, as far as the stream is claimed for writing.
fn first_on(layout: &Layout, stream: usize) -> u64
    ensures { result ≡ first_on layout.now stream }
{
    if stream < 2 {
        return 0;
    }
    cursor_of(layout.cursors.reads.as_slice(), stream).min(cursor_of(
        layout.cursors.writes.as_slice(),
        stream,
    ))
}

/// The elements of the streams where none is kept yet: of the output all.
fn blanks(
    alloc: Global,
    layout: &Layout,
    output: List<Option<Elem>>,
) -> Result<List<List<Option<Elem>>>, Memory>
    ensures { IfOk result (λ elements. elements
        ≡ [] ∷ output ∷ map (blank_on layout.now) (range_with_len 2 (length layout.now.writers - 2))) }
{
    let mut elements = List::with_capacity(alloc, layout.writers.len())?;
    elements.push(List::new(alloc))?;
    elements.push(output)?;
    add_blanks(alloc, &mut elements, layout)?;
    Ok(elements)
}

/// Adds for each declared stream its elements from the first held position on, none of which is kept yet.
fn add_blanks(
    alloc: Global,
    elements: &mut List<List<Option<Elem>>>,
    layout: &Layout,
) -> Result<(), Memory>
    ensures { OnOk result (elements.new ≡ elements.old ++ map (blank_on layout.now) (range_with_len 2 (length layout.now.writers - 2))) }
{
    for stream in 2..layout.writers.len() {
        let blank = blank_on(alloc, layout, stream)?;
        elements.push(blank)?;
    }
    Ok(())
}

/// The elements of a declared stream from the first one to be held on, none of which is kept yet.
fn blank_on(alloc: Global, layout: &Layout, stream: usize) -> Result<List<Option<Elem>>, Memory>
    ensures { IfOk result (λ blank. blank ≡ blank_on layout.now stream) }
{
    let count = cursor_of(layout.cursors.writes.as_slice(), stream).saturating_sub(first_on(
        layout, stream,
    ));
    List::filled(alloc, None, count as usize)
}

/// Puts what is kept into its places, the last one first.
fn put_all(elements: &mut List<List<Option<Elem>>>, firsts: &[u64], kept: &[Kept])
    ensures { elements.new ≡ with_all_kept firsts.now elements.old (map kept_of kept.now) }
{
    let mut left = kept.len();
    'putting: while left > 0 {
        left -= 1;
        put(elements, firsts, kept[left]);
    }
}

/// Puts a kept element of a declared stream into its place, if that is among those that are held.
fn put(elements: &mut List<List<Option<Elem>>>, firsts: &[u64], kept: Kept)
    ensures { elements.new ≡ with_kept firsts.now elements.old (kept_of kept) }
{
    let stream = kept.stream as usize;
    if stream < 2 {
        return;
    }
    if stream >= elements.len() {
        return;
    }
    let first = cursor_of(firsts, stream);
    put_at(
        &mut elements.as_mut_slice()[stream],
        first,
        kept.position,
        kept.value,
    );
}

/// Puts an element at a position of a stream, if it is among those from a first one on.
fn put_at(elements: &mut List<Option<Elem>>, first: u64, position: u64, value: Elem)
    ensures { elements.new ≡ with_element first elements.old position value }
{
    if position < first {
        return;
    }
    let at = (position - first) as usize;
    if at < elements.len() {
        elements.as_mut_slice()[at] = Some(value);
    }
}
