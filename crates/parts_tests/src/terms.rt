//! Lawful terms, and for each rule terms that break it.

use osparts_parts::{Terms, TermsFault, summary_line};
use std::test::Fail;

fn terms(part: u32, overlap: u32, skip: u32, state: u32) -> Terms {
    Terms {
        part,
        overlap,
        skip,
        state,
    }
}

#[test]
fn the_first_broken_rule_is_told(rt: HostRuntime) {
    assert!(rt; terms(1, 0, 0, 0).check() == Ok(()));
    assert!(rt; terms(4_194_296, 0, 4_194_295, 8).check() == Ok(()));
    assert!(rt; terms(0, 0, 0, 5_000_000).check() == Err(TermsFault::EmptyPart));
    assert!(rt; terms(4_194_304, 1, 0, 0).check() == Err(TermsFault::TooLarge));
    assert!(rt; terms(2, 2, 2, 0).check() == Err(TermsFault::LongOverlap));
    assert!(rt; terms(2, 0, 2, 0).check() == Err(TermsFault::LongSkip));
    assert!(rt; terms(2, 1, 0, 1).check() == Err(TermsFault::StateBesideOverlap));
}

#[test]
fn faults_have_sentences(rt: HostRuntime) -> Result<(), Fail> {
    let text = format!(in rt.alloc(); "{}", TermsFault::LongSkip)?;
    assert!(rt; text.as_str() == "a skip is shorter than a part");
    Ok(())
}

#[test]
fn a_run_is_summed_up_in_one_line(rt: HostRuntime) -> Result<(), Fail> {
    let many = summary_line(rt.alloc(), 1024, 1_073_741_824)?;
    assert!(rt; many.as_str() == "1024 parts, all done, 1073741824 bytes\n");
    let one = summary_line(rt.alloc(), 1, 1)?;
    assert!(rt; one.as_str() == "1 part, all done, 1 byte\n");
    Ok(())
}
