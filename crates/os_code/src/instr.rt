use c_int::{Binary, Unary};

/// An instruction of the machine. Each is one step, and goes on to the next place unless it says otherwise.
///
/// Each has what stands on top of the operand stack before it and after it, the top last, then what it does and its
/// traps. Where an instruction keeps a line, its traps have that line; `End` and `Spawn` trap at the line of the site,
/// `Tick` at line 0. The kinds of unit in which it stands are named where they aren't all.
#[derive(Clone, Copy, Debug, PartialEq, Eq)]
pub enum Instr {
    /// `-- number`.
    Push(i32),
    /// `value --`.
    Drop,
    /// `value -- value value`.
    Copy,
    /// `-- value`. Pushes a slot.
    Load(u32),
    /// `value --`. Pops into a slot.
    Store(u32),
    /// `--`. Sets `count` slots from `first` on to 0.
    Zero { first: u32, count: u32 },
    /// `index -- index`. `Trap::Index` unless the index is 0 to `size` - 1.
    CheckAt { size: u32, line: u32 },
    /// `index -- value`. `Trap::Index` unless the index is 0 to `size` - 1; pushes that slot from `first` on.
    LoadAt { first: u32, size: u32, line: u32 },
    /// `index value --`. `Trap::Index` unless the index is 0 to `size` - 1; pops into that slot from `first` on.
    StoreAt { first: u32, size: u32, line: u32 },
    /// `index -- index`. `Trap::Index` unless the index is in the item's window. In tasks.
    ItemCheck { item: u32, line: u32 },
    /// `index -- value`. `Trap::Index` unless the index is in the item's window; pushes the element. In tasks.
    ItemLoad { item: u32, line: u32 },
    /// `index value --`. `Trap::Index` unless the index is in the item's window; sets the output element. In tasks.
    ItemStore { item: u32, line: u32 },
    /// `operand -- value`. `Trap::Operator` where the operator has no result.
    Unary { op: Unary, line: u32 },
    /// `left right -- value`. `Trap::Operator` where the operator has no result.
    Binary { op: Binary, line: u32 },
    /// `--`. Goes to that place.
    Jump(u32),
    /// `value --`. Goes to that place where the value is 0.
    JumpZero(u32),
    /// `--`. Takes a turn of the budget; over budget where none is left.
    Turn,
    /// `arguments -- value`. Calls the function unit of that number: its arguments are the slots 0 and following of a
    /// new frame, whose other slots are 0. The value is there when the function returns.
    Call(u32),
    /// `value --`. Gives up the frame with all operands that are left in it, and pushes the value in the caller. In
    /// functions.
    Return,
    /// `--`. Ends `main`, or the task: with `Trap::NoByte` where an element of an output window whose claim names stream 1 is
    /// outside 0 to 255. In `main` and in tasks.
    End,
    /// `size --`. `Trap::WindowSize` unless the size is 1 to 65,536; keeps it in the slot. In `main`.
    Window { slot: u32, line: u32 },
    /// `burst -- burst`. `Trap::Move` unless the burst is 0 to 65,536. In `main`.
    BurstIn { line: u32 },
    /// `burst -- burst`. `Trap::OutputBurst` unless the burst is the slot's number. In `main`.
    BurstOut { slot: u32, line: u32 },
    /// `index burst .. --`, a pair for each item of the site, in order. For each item, the stream of that index must be
    /// one that it may claim, else `Trap::Index`; its horizon 1 to 65,536, else `Trap::WindowSize`; its burst 0 to 65,536,
    /// else `Trap::Move`, or of an output item the horizon, else `Trap::OutputBurst`. Then `ControlLimit::Activations` with
    /// 65,536 activations, `ControlLimit::Elements` where the horizons would pass 4,194,304. Then it creates the
    /// activation. In `main`.
    Spawn(u32),
    /// `index amount --`. The stream of that index, counted from this first number, must be one that may be read, else
    /// `Trap::Index`; the amount 0 to 65,536, else `Trap::Move`. Moves the stream's read cursor by the amount. In `main`.
    Tick(u32),
}
