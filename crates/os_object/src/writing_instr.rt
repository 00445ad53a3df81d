//! Instructions and operators as numbers.

ghost use Rattle.std.specs.Prelude.{◌≡◌, ◌++◌, OnOk};
ghost use Rattle.std.specs.Int.{w32, cast_signed};
ghost use Rattle.std.specs.List.{flat_map};
ghost use Rattle.c_int.specs.Unsigned.{word};
ghost use Rattle.os_object.specs.Object as written;

use crate::bytes::write_numbers;
use os_code::{Binary, Instr, Unary};
use os_io::Memory;

/// Adds an instruction: its own number, and its fields.
pub(crate) fn write_instr(object: &mut Vec<u8>, instr: Instr) -> Result<(), Memory>
    ensures ok { OnOk result (object.new.items ≡ object.old.items ++ flat_map written.number (written.instr_numbers instr)) }
    ensures is_instr { OnOk result (written.IsInstr instr) }
{
    match instr {
        Instr::Push(number) => write_numbers(object, &[0, bits_of(number)]),
        Instr::Drop => write_numbers(object, &[1]),
        Instr::Copy => write_numbers(object, &[2]),
        Instr::Load(slot) => write_numbers(object, &[3, slot]),
        Instr::Store(slot) => write_numbers(object, &[4, slot]),
        Instr::Zero { first, count } => write_numbers(object, &[5, first, count]),
        Instr::CheckAt { size, line } => write_numbers(object, &[6, size, line]),
        Instr::LoadAt { first, size, line } => write_numbers(object, &[7, first, size, line]),
        Instr::StoreAt { first, size, line } => write_numbers(object, &[8, first, size, line]),
        Instr::ItemCheck { item, line } => write_numbers(object, &[9, item, line]),
        Instr::ItemLoad { item, line } => write_numbers(object, &[10, item, line]),
        Instr::ItemStore { item, line } => write_numbers(object, &[11, item, line]),
        Instr::Unary { op, line } => write_numbers(object, &[12, unary_number(op), line]),
        Instr::Binary { op, line } => write_numbers(object, &[13, binary_number(op), line]),
        Instr::Jump(to) => write_numbers(object, &[14, to]),
        Instr::JumpZero(to) => write_numbers(object, &[15, to]),
        Instr::Turn => write_numbers(object, &[16]),
        Instr::Call(unit) => write_numbers(object, &[17, unit]),
        Instr::Return => write_numbers(object, &[18]),
        Instr::End => write_numbers(object, &[19]),
        Instr::Window { slot, line } => write_numbers(object, &[20, slot, line]),
        Instr::BurstIn { line } => write_numbers(object, &[21, line]),
        Instr::BurstOut { slot, line } => write_numbers(object, &[22, slot, line]),
        Instr::Spawn(site) => write_numbers(object, &[23, site]),
        Instr::Tick(stream) => write_numbers(object, &[24, stream]),
    }
}

/// The 32 bits of a number.
fn bits_of(number: i32) -> u32
    ensures is { result ≡ word number }
    ensures back { cast_signed w32 (word number) ≡ number }
{
    number.cast_unsigned()
}

/// The number of an operator.
fn unary_number(operator: Unary) -> u32
    ensures { result ≡ written.unary_number operator }
{
    match operator {
        Unary::Minus => 0,
        Unary::Plus => 1,
        Unary::Not => 2,
        Unary::Invert => 3,
        Unary::MinusUnsigned => 4,
    }
}

/// The number of an operator.
fn binary_number(operator: Binary) -> u32
    ensures { result ≡ written.binary_number operator }
{
    match operator {
        Binary::Multiply => 0,
        Binary::Divide => 1,
        Binary::Remainder => 2,
        Binary::Add => 3,
        Binary::Subtract => 4,
        Binary::ShiftLeft => 5,
        Binary::ShiftRight => 6,
        Binary::Less => 7,
        Binary::LessEqual => 8,
        Binary::Greater => 9,
        Binary::GreaterEqual => 10,
        Binary::Equal => 11,
        Binary::Unequal => 12,
        Binary::BitAnd => 13,
        Binary::BitXor => 14,
        Binary::BitOr => 15,
        Binary::MultiplyUnsigned => 16,
        Binary::DivideUnsigned => 17,
        Binary::RemainderUnsigned => 18,
        Binary::AddUnsigned => 19,
        Binary::SubtractUnsigned => 20,
        Binary::ShiftLeftUnsigned => 21,
        Binary::ShiftRightUnsigned => 22,
        Binary::LessUnsigned => 23,
        Binary::LessEqualUnsigned => 24,
        Binary::GreaterUnsigned => 25,
        Binary::GreaterEqualUnsigned => 26,
    }
}
