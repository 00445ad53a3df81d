//! The cursors of streams, and how a claim moves them.

ghost use Rattle.std.specs.Prelude.{◌≡◌, ◌<◌, IfOk, length, replicate, slice_set};
ghost use Rattle.stream_match_layouts.specs.Cursors.{HasCursors, moved_by, span_by};

use crate::span::Span;
use flow_core_laws::Claim;
use os_io::{List, Memory};
use std::alloc::Global;

/// Where the streams stand behind claims.
#[derive(Debug, Drop)]
pub struct Cursors {
    /// The read cursor of each stream.
    pub reads: List<u64>,
    /// The write cursor of each stream: how many of its positions are claimed for writing.
    pub writes: List<u64>,
}

impl Cursors {
    /// Before the first claim: all of `streams` streams stand at 0.
    pub fn new(alloc: Global, streams: u32) -> Result<Cursors, Memory>
        ensures { IfOk result (λ cursors. cursors ≡ record { reads = replicate streams 0; writes = replicate streams 0 }) }
    {
        Ok(Cursors {
            reads: List::filled(alloc, 0, streams as usize)?,
            writes: List::filled(alloc, 0, streams as usize)?,
        })
    }

    /// Cursors that stand where these do, with memory of their own.
    pub fn copy(&self, alloc: Global) -> Result<Cursors, Memory>
        ensures { IfOk result (λ copy. copy ≡ self.now) }
    {
        Ok(Cursors {
            reads: List::from_slice(alloc, self.reads.as_slice())?,
            writes: List::from_slice(alloc, self.writes.as_slice())?,
        })
    }

    /// The span of an activation's next claim, where its windows before this one take `offset` inputs or outputs: it begins where the
    /// claim's cursor stands, which moves behind it.
    #[inline(always)]
    pub fn take(&mut self, frame: u16, claim: &Claim, offset: u32) -> Span
        requires { HasCursors self.old claim.now }
        ensures span { result ≡ span_by self.old frame claim.now offset }
        ensures moved { self.new ≡ moved_by self.old claim.now }
    {
        let stream = claim.stream as usize;
        let first = if claim.write {
            let first = self.writes.as_slice()[stream];
            set(&mut self.writes, stream, first + u64::from(claim.horizon));
            first
        } else {
            let first = self.reads.as_slice()[stream] + claim.skip;
            set(&mut self.reads, stream, first + u64::from(claim.burst));
            first
        };
        Span {
            first,
            count: claim.horizon,
            offset,
            stream: claim.stream,
            frame,
            write: claim.write,
        }
    }
}

/// Sets a cursor.
fn set(cursors: &mut List<u64>, stream: usize, cursor: u64)
    requires { stream < length cursors.old }
    ensures { cursors.new ≡ slice_set cursors.old stream cursor }
{
    cursors.as_mut_slice()[stream] = cursor;
}
