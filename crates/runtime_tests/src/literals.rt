//! Claims, spans, frames, pieces and elements as they stand in tables.

/// A read claim by its stream, horizon, burst and skip.
macro_rules! reads {
    ($stream:expr, $horizon:expr, $burst:expr, $skip:expr) => {
        flow_core::Claim {
            stream: $stream,
            write: false,
            horizon: $horizon,
            burst: $burst,
            skip: $skip,
        }
    };
}

/// A write claim by its stream and horizon.
macro_rules! writes {
    ($stream:expr, $horizon:expr) => {
        flow_core::Claim {
            stream: $stream,
            write: true,
            horizon: $horizon,
            burst: $horizon,
            skip: 0,
        }
    };
}

/// The span of a read claim by its frame, stream, first position, count and offset.
macro_rules! read {
    ($frame:expr, $stream:expr, $first:expr, $count:expr, $offset:expr) => {
        stream_match::Span {
            frame: $frame,
            stream: $stream,
            write: false,
            first: $first,
            count: $count,
            offset: $offset,
        }
    };
}

/// The span of a write claim in the same way.
macro_rules! written {
    ($frame:expr, $stream:expr, $first:expr, $count:expr, $offset:expr) => {
        stream_match::Span {
            frame: $frame,
            stream: $stream,
            write: true,
            first: $first,
            count: $count,
            offset: $offset,
        }
    };
}

/// A frame by its first cell, inputs, outputs, empty cells, first piece and number of pieces.
macro_rules! frame {
    ($cell:expr, $inputs:expr, $outputs:expr, $wait:expr, $piece:expr, $pieces:expr) => {
        flow_core::FramePlan {
            cell: $cell,
            inputs: $inputs,
            outputs: $outputs,
            wait: $wait,
            piece: $piece,
            pieces: $pieces,
        }
    };
}

/// A piece by its frame, the frame it goes to, its first output element, its length and its first cell.
macro_rules! piece {
    ($from:expr, $to:expr, $first:expr, $count:expr, $at:expr) => {
        flow_core::Piece {
            from: $from,
            to: $to,
            first: $first,
            count: $count,
            at: $at,
        }
    };
}

/// An element that is a value.
macro_rules! value {
    ($value:expr) => {
        Some(flow_core::Elem::Value($value))
    };
}

/// An element that is poison, by its root.
macro_rules! poison {
    ($root:expr) => {
        Some(flow_core::Elem::Poison($root))
    };
}

pub(crate) use frame;
pub(crate) use piece;
pub(crate) use poison;
pub(crate) use read;
pub(crate) use reads;
pub(crate) use value;
pub(crate) use writes;
pub(crate) use written;
