//! A list holds what is pushed and what is written into it.

use os_io::{List, Memory};
use std::test::Fail;

fn push_all(list: &mut List<u32>, items: &[u32]) -> Result<(), Memory> {
    for item in items {
        list.push(*item)?;
    }
    Ok(())
}

#[test]
fn holds_what_is_pushed_and_written(rt: HostRuntime) -> Result<(), Fail> {
    let mut list = List::with_capacity(rt.alloc(), 2)?;
    list.reserve(3)?;
    assert!(rt; list.len() == 0);
    push_all(&mut list, &[2, 3, 5])?;
    assert!(rt; list.as_slice() == [2, 3, 5].as_slice());
    list.as_mut_slice().fill(7);
    assert!(rt; list.as_slice() == [7, 7, 7].as_slice());
    list.extend_from_slice(&[11, 13])?;
    assert!(rt; list.as_slice() == [7, 7, 7, 11, 13].as_slice());
    assert!(rt; List::filled(rt.alloc(), 17u32, 3)?.as_slice() == [17, 17, 17].as_slice());
    Ok(())
}
