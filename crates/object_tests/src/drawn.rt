//! Objects of valid codes that are drawn: whatever their numbers are, they are read, and written as they were.

ghost use Rattle.std.specs.Prelude.{◌<◌, ◌≤◌};

use crate::answers::{Answer, answer_to};
use os_io::Memory;
use std::alloc::Global;
use std::test::Fail;

/// How many codes are drawn.
const CODES: u32 = 3000;
/// How many slots each unit has.
const SLOTS: u32 = 4;

/// A generator of numbers that look drawn by lot.
#[derive(Clone, Copy)]
struct Draw {
    state: u64,
}

impl Draw {
    /// A number below a bound.
    fn below(&mut self, bound: u32) -> u32
        requires { 1 ≤ bound }
        ensures { result < bound }
    {
        self.state = self
            .state
            .wrapping_mul(6364136223846793005)
            .wrapping_add(1442695040888963407);
        (self.state >> 33) as u32 % bound
    }
}

/// A unit whose instructions are drawn.
#[derive(Clone, Copy, PartialEq, Eq)]
enum UnitKind {
    Function,
    Task,
    Main,
}

/// What the units of a code name, drawn: the arguments of the function, the captured slots and the items of the task, the streams.
#[derive(Clone, Copy)]
struct Shape {
    args: u32,
    captured: u32,
    items: u32,
    streams: u32,
}

/// The instructions of units, as an object has them, with the place of the next one and the height of the operand stack there.
#[derive(Drop)]
struct Body {
    numbers: Vec<u32>,
    place: u32,
    height: u32,
}

impl Body {
    /// Adds `count` instructions, which together take `taken` operands and leave `left`.
    fn add(&mut self, numbers: &[u32], count: u32, taken: u32, left: u32) -> Result<(), Memory> {
        self.numbers.extend_from_slice(numbers)?;
        self.place = self.place.wrapping_add(count);
        self.height = self.height.wrapping_sub(taken).wrapping_add(left);
        Ok(())
    }

    /// Adds a piece that stands in each unit.
    fn add_piece(&mut self, draw: &mut Draw, shape: Shape, unit: UnitKind) -> Result<(), Memory> {
        let place = self.place;
        let line = draw.below(u32::MAX);
        let slot = draw.below(SLOTS);
        match (draw.below(16), self.height) {
            (0, _) => self.add(&[0, line.wrapping_mul(2)], 1, 0, 1),
            (1, _) => self.add(&[3, slot], 1, 0, 1),
            (2, _) => self.add(&[5, slot, SLOTS - slot], 1, 0, 0),
            // A loop of turns.
            (3, _) => self.add(
                &[16, 0, line, 15, place.wrapping_add(4), 14, place],
                4,
                0,
                0,
            ),
            // What nothing reaches, with heights that don't fit.
            (4, _) => self.add(&[14, place.wrapping_add(3), 1, 13, 0, line], 3, 0, 0),
            (5, height) if unit != UnitKind::Function && height >= shape.args => self.add(
                &[16, 17, 0],
                2,
                shape.args,
                1,
            ),
            (6, 1..) => self.add(&[1], 1, 1, 0),
            (7, 1..) => self.add(&[2], 1, 0, 1),
            (8, 1..) => self.add(&[4, slot], 1, 1, 0),
            (9, 1..) => self.add(&[6, line, line], 1, 0, 0),
            (10, 1..) => self.add(&[7, slot, SLOTS - slot, line], 1, 0, 0),
            (11, 1..) => self.add(&[12, draw.below(5), line], 1, 0, 0),
            // A jump over what keeps the height.
            (12, 1..) => self.add(&[15, place.wrapping_add(3), 0, line, 1], 3, 1, 0),
            (13, 2..) => self.add(&[8, slot, SLOTS - slot, line], 1, 2, 0),
            (14 | 15, 2..) => self.add(&[13, draw.below(27), line], 1, 1, 0),
            _ => Ok(()),
        }
    }

    /// Adds a piece that stands in tasks alone. Each second item is an output item, the first one too.
    fn add_task_piece(&mut self, draw: &mut Draw, shape: Shape) -> Result<(), Memory> {
        let line = draw.below(u32::MAX);
        let item = draw.below(shape.items.max(1));
        match (draw.below(3), self.height) {
            _ if shape.items == 0 => Ok(()),
            (0, 1..) => self.add(&[9, item, line], 1, 0, 0),
            (1, 1..) => self.add(&[10, item, line], 1, 0, 0),
            (2, 2..) => self.add(&[11, item - item % 2, line], 1, 2, 0),
            _ => Ok(()),
        }
    }

    /// Adds a piece that stands in `main` alone.
    fn add_main_piece(&mut self, draw: &mut Draw, shape: Shape) -> Result<(), Memory> {
        let line = draw.below(u32::MAX);
        let slot = draw.below(SLOTS);
        match (draw.below(5), self.height) {
            (0, 1..) => self.add(&[20, slot, line], 1, 1, 0),
            (1, 1..) => self.add(&[21, line], 1, 0, 0),
            (2, 1..) => self.add(&[22, slot, line], 1, 0, 0),
            (3, 2..) => self.add(&[16, 24, draw.below(shape.streams.max(1))], 2, 2, 0),
            (4, height) if height / 2 >= shape.items => {
                self.add(&[23, 0], 1, shape.items.wrapping_mul(2), 0)
            }
            _ => Ok(()),
        }
    }

    /// Adds the instructions of a unit. Behind a `Turn` it may open with a call.
    fn add_unit(&mut self, draw: &mut Draw, shape: Shape, unit: UnitKind) -> Result<(), Memory> {
        self.height = 0;
        if unit != UnitKind::Function && shape.args == 0 {
            self.add(&[17, 0], 1, 0, 1)?;
        }
        for _ in 0..draw.below(40) {
            self.add_piece(draw, shape, unit)?;
            match unit {
                UnitKind::Function => {}
                UnitKind::Task => self.add_task_piece(draw, shape)?,
                UnitKind::Main => self.add_main_piece(draw, shape)?,
            }
        }
        self.add_end(unit)
    }

    /// Adds the end of a unit, and a `Turn` that nothing reaches.
    fn add_end(&mut self, unit: UnitKind) -> Result<(), Memory> {
        match unit {
            UnitKind::Function => self.add(&[0, 7, 18, 16], 3, 0, 0),
            UnitKind::Task | UnitKind::Main => self.add(&[19, 16], 2, 0, 0),
        }
    }
}

/// The numbers of a code: a function, a task and `main`. The task may stand before `main` in the list of units, or behind it.
fn code_of(alloc: Global, draw: &mut Draw) -> Result<Vec<u32>, Memory> {
    let shape = Shape {
        args: draw.below(3),
        captured: draw.below(4),
        items: draw.below(5),
        streams: 2 + draw.below(65537),
    };
    let mut body = Body {
        numbers: Vec::new(alloc),
        place: 0,
        height: 0,
    };
    body.add_unit(draw, shape, UnitKind::Function)?;
    let task = body.place;
    body.add_unit(draw, shape, UnitKind::Task)?;
    let main = body.place;
    body.add_unit(draw, shape, UnitKind::Main)?;
    let mut units = [
        [0, shape.args, SLOTS, task],
        [task, shape.captured, SLOTS, main.wrapping_sub(task)],
        [main, 1, SLOTS, body.place.wrapping_sub(main)],
    ];
    let main_number = 1 + draw.below(2);
    if main_number == 1 {
        units.swap(1, 2);
    }
    let mut numbers = Vec::from_slice(alloc, &[shape.streams, main_number, 3])?;
    for unit in &units {
        numbers.extend_from_slice(unit)?;
    }
    numbers.extend_from_slice(&[1, 3 - main_number])?;
    add_site(&mut numbers, draw, shape)?;
    numbers.push(body.place)?;
    numbers.extend_from_slice(body.numbers.as_slice())?;
    Ok(numbers)
}

/// Adds the line, the captured slots and the items of a site.
fn add_site(numbers: &mut Vec<u32>, draw: &mut Draw, shape: Shape) -> Result<(), Memory> {
    numbers.extend_from_slice(&[draw.below(u32::MAX), shape.captured])?;
    for _ in 0..shape.captured {
        numbers.push(draw.below(SLOTS))?;
    }
    numbers.push(shape.items)?;
    for item in 0..shape.items {
        numbers.extend_from_slice(&[
            1 - item % 2,
            draw.below(shape.streams.max(1)),
            draw.below(SLOTS + 1),
        ])?;
    }
    Ok(())
}

/// Whether each code is read, and written as it was.
fn all_come_back(alloc: Global) -> bool {
    let mut draw = Draw { state: 1 };
    for _ in 0..CODES {
        let Ok(numbers) = code_of(alloc, &mut draw) else {
            return false;
        };
        if answer_to(alloc, numbers.as_slice()) != Answer::Code {
            return false;
        }
    }
    true
}

#[test]
fn drawn_codes_come_back(rt: HostRuntime) -> Result<(), Fail> {
    assert!(rt; all_come_back(rt.alloc()));
    Ok(())
}
