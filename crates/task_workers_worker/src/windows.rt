ghost use Rattle.std.specs.Prelude.{◌≡◌, ◌≤◌, length};
ghost use Rattle.task_workers_worker.specs.Logs.{holds_up_to};

use os_io::Room;

/// Makes a room hold `count` zeros.
pub(crate) fn fill(room: &mut Room<i32>, count: usize)
    requires { count ≤ holds_up_to room.old }
    ensures long { length room.new.items ≡ count }
    ensures room { holds_up_to room.new ≡ holds_up_to room.old }
{
    room.clear();
    for _ in 0..count {
        room.push_spare(0);
    }
}
