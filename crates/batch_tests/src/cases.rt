//! Activations by how they stand to one another.

use flow_core::{Activation, Claim};
use os_io::{List, Memory};
use std::alloc::Global;

/// How activations stand to one another.
#[derive(Clone, Copy)]
pub(crate) enum Shape {
    /// Each reads three elements of the input, and moves on by one.
    Windows,
    /// Each reads what the one before wrote.
    Chain,
    /// The first one writes what all others read, and the last one reads what they write.
    Fan,
    /// The first two wait for each other.
    Cycle,
    /// Each of the second half reads what one of the first half wrote.
    Layers,
    /// The last one reads what all others write to one stream.
    Join,
    /// Three stages by turns: the first reads the input, and each of the others what the one before wrote.
    Pipeline,
}

/// A run: its activations, the length of its input, and whether some of its bodies fail.
#[derive(Clone, Copy)]
pub(crate) struct Case {
    pub shape: Shape,
    pub activations: u32,
    pub input: u32,
    pub some_fail: bool,
}

pub(crate) static CASES: [Case; 9] = [
    Case {
        shape: Shape::Windows,
        activations: 40,
        input: 42,
        some_fail: false,
    },
    // The input ends before the last three.
    Case {
        shape: Shape::Windows,
        activations: 40,
        input: 39,
        some_fail: true,
    },
    Case {
        shape: Shape::Chain,
        activations: 40,
        input: 4,
        some_fail: false,
    },
    // The second one traps, and poisons all behind it.
    Case {
        shape: Shape::Chain,
        activations: 40,
        input: 4,
        some_fail: true,
    },
    Case {
        shape: Shape::Fan,
        activations: 22,
        input: 4,
        some_fail: false,
    },
    Case {
        shape: Shape::Fan,
        activations: 22,
        input: 4,
        some_fail: true,
    },
    Case {
        shape: Shape::Cycle,
        activations: 5,
        input: 4,
        some_fail: false,
    },
    Case {
        shape: Shape::Layers,
        activations: 41,
        input: 21,
        some_fail: true,
    },
    Case {
        shape: Shape::Chain,
        activations: 0,
        input: 4,
        some_fail: false,
    },
];

/// An input of `count` elements, each of which is its position modulo 251.
pub(crate) fn input_of(alloc: Global, count: u32) -> Result<Vec<u8>, Memory> {
    let mut input = Vec::new(alloc);
    for k in 0..count {
        input.push((k % 251) as u8)?;
    }
    Ok(input)
}

/// The activations of a case.
pub(crate) fn activations_of(alloc: Global, case: Case) -> Result<Vec<Activation>, Memory> {
    let mut activations = Vec::new(alloc);
    for number in 0..case.activations {
        let last = case.activations - 1;
        activations.push(Activation {
            site: 0,
            captured: List::new(alloc),
            claims: List::from_slice(
                alloc,
                &[
                    read_by(case.shape, number, last),
                    written_by(case.shape, number, last),
                ],
            )?,
        })?;
    }
    Ok(activations)
}

/// What an activation reads.
fn read_by(shape: Shape, number: u32, last: u32) -> Claim {
    match shape {
        Shape::Windows => read(0, 3, 1),
        Shape::Chain | Shape::Fan if number == 0 => read(0, 4, 4),
        Shape::Chain => read(2, 1, 1),
        Shape::Fan if number == last && last > 1 => read(3, last - 1, last - 1),
        Shape::Fan => read(2, 1, 0),
        Shape::Cycle if number == 0 => read(2, 1, 1),
        Shape::Cycle if number == 1 => read(3, 1, 1),
        Shape::Layers if number > last / 2 => read(2, 1, 1),
        Shape::Join if number == last && last > 0 => read(2, last, last),
        Shape::Pipeline if number % 3 == 1 => read(2, 1, 1),
        Shape::Pipeline if number % 3 == 2 => read(3, 1, 1),
        _ => read(0, 1, 1),
    }
}

/// What an activation writes: an element of a stream.
fn written_by(shape: Shape, number: u32, last: u32) -> Claim {
    let stream = match shape {
        Shape::Chain if number < last => 2,
        Shape::Fan if number == 0 => 2,
        Shape::Fan if number < last => 3,
        Shape::Cycle if number == 0 => 3,
        Shape::Cycle if number == 1 => 2,
        Shape::Layers if number <= last / 2 => 2,
        Shape::Join if number < last => 2,
        Shape::Pipeline if number % 3 == 0 => 2,
        Shape::Pipeline if number % 3 == 1 => 3,
        _ => 1,
    };
    Claim {
        stream,
        write: true,
        horizon: 1,
        burst: 1,
        skip: 0,
    }
}

fn read(stream: u32, horizon: u32, burst: u32) -> Claim {
    Claim {
        stream,
        write: false,
        horizon,
        burst,
        skip: 0,
    }
}
