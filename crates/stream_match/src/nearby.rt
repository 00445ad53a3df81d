ghost use Rattle.std.specs.Prelude.{◌≡◌, ◌<◌, true, length};
ghost use Rattle.stream_match_layouts.specs.Writers.{HasWriters, FirstBehind};
ghost use Rattle.stream_match.specs.Walking.{EndsBefore, ReachesPast};

use os_io::Memory;
use std::alloc::Global;
use stream_match_layouts::Layout;

/// For each stream the place behind the write span that was found last: who reads on there finds the next one with no
/// search.
#[derive(Drop)]
pub(crate) struct Nearby {
    places: Vec<usize>,
}

impl Nearby {
    /// The first places of `streams` streams.
    pub(crate) fn new(alloc: Global, streams: usize) -> Result<Nearby, Memory> {
        let mut places = Vec::new(alloc);
        places.resize(streams, 0)?;
        Ok(Nearby { places })
    }

    /// The place among the write spans of a stream of the first one that reaches past a position. It is looked for at the
    /// place behind the one that was found last, then there, and else by halving.
    pub(crate) fn first_behind(&self, layout: &Layout, stream: u32, position: u64) -> usize
        requires exists { stream < length layout.now.writers }
        requires writers { HasWriters layout.now stream }
        ensures { FirstBehind layout.now stream position result }
    {
        let place = self.place(stream);
        if is_first_behind(layout, stream, position, place) {
            return place;
        }
        let before = place.saturating_sub(1);
        if is_first_behind(layout, stream, position, before) {
            return before;
        }
        layout.first_behind(stream, position)
    }

    /// The place behind the write span of a stream that was found last.
    pub(crate) fn place(&self, stream: u32) -> usize {
        match self.places.get(stream as usize) {
            Some(place) => *place,
            None => 0,
        }
    }

    /// Sets the place behind the write span of a stream that was found last.
    pub(crate) fn set(&mut self, stream: u32, place: usize) {
        if let Some(last) = self.places.get_mut(stream as usize) {
            *last = place;
        }
    }
}

/// Whether the write span at a place of a stream is the first one that reaches past a position.
fn is_first_behind(layout: &Layout, stream: u32, position: u64, place: usize) -> bool
    requires exists { stream < length layout.now.writers }
    requires writers { HasWriters layout.now stream }
    ensures { result ≡ true → FirstBehind layout.now stream position place }
{
    reaches_past(layout, stream, position, place) && is_behind(layout, stream, position, place)
}

/// Whether the write spans before a place of a stream end at a position or before it, as the one at the place, which is
/// read anyway, mostly tells.
fn is_behind(layout: &Layout, stream: u32, position: u64, place: usize) -> bool
    requires exists { stream < length layout.now.writers }
    requires writers { HasWriters layout.now stream }
    ensures { result ≡ true → EndsBefore layout.now stream position place }
{
    begins_before(layout, stream, position, place) || ends_before(layout, stream, position, place)
}

/// Whether there is a write span at a place of a stream that begins at a position or before it.
fn begins_before(layout: &Layout, stream: u32, position: u64, place: usize) -> bool
    requires exists { stream < length layout.now.writers }
    requires writers { HasWriters layout.now stream }
    ensures { result ≡ true → EndsBefore layout.now stream position place }
{
    let Some(number) = layout.writer(stream, place) else {
        return false;
    };
    let span = layout.span(number as usize);
    span.first <= position
}

/// Whether the write span before a place of a stream, if the place isn't the first one, ends at a position or before it.
fn ends_before(layout: &Layout, stream: u32, position: u64, place: usize) -> bool
    requires exists { stream < length layout.now.writers }
    requires writers { HasWriters layout.now stream }
    ensures { result ≡ true → EndsBefore layout.now stream position place }
{
    if place == 0 {
        return true;
    }
    let Some(number) = layout.writer(stream, place - 1) else {
        return false;
    };
    let span = layout.span(number as usize);
    span.first + u64::from(span.count) <= position
}

/// Whether the write span at a place of a stream, if there is one, reaches past a position.
fn reaches_past(layout: &Layout, stream: u32, position: u64, place: usize) -> bool
    requires exists { stream < length layout.now.writers }
    requires writers { HasWriters layout.now stream }
    ensures { result ≡ true → ReachesPast layout.now stream position place }
{
    let Some(number) = layout.writer(stream, place) else {
        return true;
    };
    let span = layout.span(number as usize);
    position < span.first + u64::from(span.count)
}
