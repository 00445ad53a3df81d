//! A room holds what is pushed and written into it, takes as much again once it is cleared, and becomes a list.

ghost use Rattle.std.specs.Prelude.{◌≤◌, ◌≡◌, ◌+◌, ◌++◌, ◌∷◌, []};

use os_io::Room;
use std::test::Fail;

fn push_all(room: &mut Room<u32>, items: [u32; 3])
    requires { 3 ≤ room.old.spare }
    ensures spare { room.new.spare + 3 ≡ room.old.spare }
{
    room.push_spare(items[0]);
    room.push_spare(items[1]);
    room.push_spare(items[2]);
}

#[test]
fn holds_what_is_pushed_and_written_and_becomes_a_list(rt: HostRuntime) -> Result<(), Fail> {
    let mut room = Room::new(rt.alloc(), 3)?;
    assert!(rt; room.len() == 0);
    push_all(&mut room, [2, 3, 5]);
    assert!(rt; room.as_slice() == [2, 3, 5].as_slice());
    room.clear();
    assert!(rt; room.len() == 0);
    push_all(&mut room, [7, 11, 13]);
    room.as_mut_slice().fill(17);
    assert!(rt; room.as_slice() == [17, 17, 17].as_slice());
    let list = room.into_list();
    assert!(rt; list.as_slice() == [17, 17, 17].as_slice());
    Ok(())
}
