//! Outputs of parts, with skips and states.

use os_io::{List, Memory};
use osparts_parts::{JoinError, Joiner, Terms, with_state};
use std::alloc::Global;
use std::test::Fail;

/// What three outputs are joined to, each with a bar after it; a short one is told by a question mark.
fn bars(alloc: Global, terms: Terms, outputs: [&[u8]; 3]) -> Result<List<u8>, Memory> {
    let mut joiner = Joiner::new(terms);
    let mut text = List::new(alloc);
    for output in outputs.iter() {
        match joiner.join(*output) {
            Ok(joint) => text.extend_from_slice(joint.kept)?,
            Err(JoinError::ShortOutput) => text.push(b'?')?,
        }
        text.push(b'|')?;
    }
    Ok(text)
}

fn terms(skip: u32, state: u32) -> Terms {
    Terms {
        part: 4,
        overlap: 0,
        skip,
        state,
    }
}

#[test]
fn skips_and_states_are_left_out(rt: HostRuntime) -> Result<(), Fail> {
    let outputs = [b"abcd".as_slice(), b"efgh".as_slice(), b"i".as_slice()];
    assert!(rt; bars(rt.alloc(), terms(0, 0), outputs)?.as_slice() == b"abcd|efgh|i|".as_slice());
    assert!(rt; bars(rt.alloc(), terms(2, 0), outputs)?.as_slice() == b"abcd|gh|?|".as_slice());
    assert!(rt; bars(rt.alloc(), terms(0, 1), outputs)?.as_slice() == b"abc|efg||".as_slice());
    assert!(rt; bars(rt.alloc(), terms(1, 2), outputs)?.as_slice() == b"ab|f|?|".as_slice());
    Ok(())
}

#[test]
fn a_state_stands_in_front_of_the_next_part(rt: HostRuntime) -> Result<(), Fail> {
    let mut joiner = Joiner::new(terms(0, 3));
    if let Ok(joint) = joiner.join(b"written") {
        let input = with_state(rt.alloc(), joint.state, b"part")?;
        assert!(rt; input.as_slice() == b"tenpart".as_slice());
        return Ok(());
    }
    assert!(rt; false);
    Ok(())
}
