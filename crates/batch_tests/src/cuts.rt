//! In the slots of which earlier batches each batch of a cut looks.

use crate::cases::{Case, Shape, activations_of};
use epoch_run_stretch::Cut;
use lawful_layouts::lawful_layout;
use std::alloc::Global;
use std::process::Abort;
use std::test::Fail;

/// A cut of activations, with the earlier batches in whose slots each of its batches looks.
#[derive(Clone, Copy)]
struct CutCase {
    shape: Shape,
    activations: u32,
    cut: Cut,
    from: &'static [&'static [u32]],
}

static CUTS: [CutCase; 6] = [
    // Activations 4, 8, 16 and 20 are a second or a third stage.
    CutCase {
        shape: Shape::Pipeline,
        activations: 24,
        cut: Cut { first: 0, size: 4 },
        from: &[&[], &[0], &[1], &[], &[3], &[4]],
    },
    // What activation 4 reads was written before the stretch.
    CutCase {
        shape: Shape::Pipeline,
        activations: 24,
        cut: Cut { first: 4, size: 4 },
        from: &[&[], &[0], &[], &[2], &[3]],
    },
    // All that is read is of the input.
    CutCase {
        shape: Shape::Windows,
        activations: 40,
        cut: Cut { first: 0, size: 16 },
        from: &[&[], &[], &[]],
    },
    CutCase {
        shape: Shape::Chain,
        activations: 40,
        cut: Cut { first: 4, size: 16 },
        from: &[&[], &[0], &[1]],
    },
    // Activations 21 to 40 read what 0 to 19 wrote.
    CutCase {
        shape: Shape::Layers,
        activations: 41,
        cut: Cut { first: 0, size: 8 },
        from: &[&[], &[], &[0], &[0, 1], &[1, 2], &[2]],
    },
    // The last one reads what 1 to 20 wrote.
    CutCase {
        shape: Shape::Fan,
        activations: 22,
        cut: Cut { first: 0, size: 8 },
        from: &[&[], &[0], &[0, 1]],
    },
];

/// How many elements the input has.
const INPUT: u32 = 64;

/// A batch looks where what it reads was written, and nowhere else: not for the input, for what it wrote itself, or for what was written before the
/// stretch.
#[test]
fn a_batch_looks_where_what_it_reads_was_written(rt: HostRuntime) -> Result<(), Fail> {
    for case in &CUTS {
        looks_there(&rt, rt.alloc(), case)?;
    }
    Ok(())
}

/// Whether the batches of a cut look where they are to.
fn looks_there<R: Abort>(rt: &R, alloc: Global, case: &CutCase) -> Result<(), Fail> {
    let activations = activations_of(
        alloc,
        Case {
            shape: case.shape,
            activations: case.activations,
            input: INPUT,
            some_fail: false,
        },
    )?;
    let Some(layout) = lawful_layout(alloc, 4, INPUT, activations.as_slice())? else {
        return Err(Fail::from("the activations aren't lawful"));
    };
    let batches = case.cut.batches(alloc, &layout)?;
    assert!(rt; batches.len() == case.from.len());
    for (batch, from) in batches.as_slice().iter().zip(case.from) {
        assert!(rt; batch.from.as_slice() == *from);
    }
    Ok(())
}
