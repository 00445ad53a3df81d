//! Instructions and operators at the front of numbers.

ghost use Rattle.std.specs.Prelude.{◌≡◌, ◌++◌, List, ℕ, IfSome, IfNone};
ghost use Rattle.os_object.specs.Object.{unary_number, binary_number, instr_numbers, IsInstr};

use os_code::{Binary, Instr, Unary};

/// The instruction at the front, and the numbers behind it.
pub(crate) fn read_instr(numbers: &[u32]) -> Option<(Instr, &[u32])>
    ensures some { IfSome result (λ read. IsInstr read.0 × (numbers.now ≡ instr_numbers read.0 ++ read.1.now)) }
    ensures none { IfNone result ((instr : Instr) (rest : List ℕ) → numbers.now ≡ instr_numbers instr ++ rest → ⊥) }
{
    match numbers {
        [0, number, rest @ ..] => Some((Instr::Push(number.cast_signed()), rest)),
        [1, rest @ ..] => Some((Instr::Drop, rest)),
        [2, rest @ ..] => Some((Instr::Copy, rest)),
        [3, slot, rest @ ..] => Some((Instr::Load(*slot), rest)),
        [4, slot, rest @ ..] => Some((Instr::Store(*slot), rest)),
        [5, first, count, rest @ ..] => Some((
            Instr::Zero {
                first: *first,
                count: *count,
            },
            rest,
        )),
        [6, size, line, rest @ ..] => Some((
            Instr::CheckAt {
                size: *size,
                line: *line,
            },
            rest,
        )),
        [7, first, size, line, rest @ ..] => Some((
            Instr::LoadAt {
                first: *first,
                size: *size,
                line: *line,
            },
            rest,
        )),
        [8, first, size, line, rest @ ..] => Some((
            Instr::StoreAt {
                first: *first,
                size: *size,
                line: *line,
            },
            rest,
        )),
        [9, item, line, rest @ ..] => Some((
            Instr::ItemCheck {
                item: *item,
                line: *line,
            },
            rest,
        )),
        [10, item, line, rest @ ..] => Some((
            Instr::ItemLoad {
                item: *item,
                line: *line,
            },
            rest,
        )),
        [11, item, line, rest @ ..] => Some((
            Instr::ItemStore {
                item: *item,
                line: *line,
            },
            rest,
        )),
        [12, op, line, rest @ ..] => {
            let op = unary_of(*op)?;
            Some((Instr::Unary { op, line: *line }, rest))
        }
        [13, op, line, rest @ ..] => {
            let op = binary_of(*op)?;
            Some((Instr::Binary { op, line: *line }, rest))
        }
        [14, to, rest @ ..] => Some((Instr::Jump(*to), rest)),
        [15, to, rest @ ..] => Some((Instr::JumpZero(*to), rest)),
        [16, rest @ ..] => Some((Instr::Turn, rest)),
        [17, unit, rest @ ..] => Some((Instr::Call(*unit), rest)),
        [18, rest @ ..] => Some((Instr::Return, rest)),
        [19, rest @ ..] => Some((Instr::End, rest)),
        [20, slot, line, rest @ ..] => Some((
            Instr::Window {
                slot: *slot,
                line: *line,
            },
            rest,
        )),
        [21, line, rest @ ..] => Some((Instr::BurstIn { line: *line }, rest)),
        [22, slot, line, rest @ ..] => Some((
            Instr::BurstOut {
                slot: *slot,
                line: *line,
            },
            rest,
        )),
        [23, site, rest @ ..] => Some((Instr::Spawn(*site), rest)),
        [24, stream, rest @ ..] => Some((Instr::Tick(*stream), rest)),
        _ => None,
    }
}

/// The operator with this number, if there is one.
fn unary_of(number: u32) -> Option<Unary>
    ensures some { IfSome result (λ operator. number ≡ unary_number operator) }
    ensures none { IfNone result ((operator : Unary) → number ≡ unary_number operator → ⊥) }
{
    match number {
        0 => Some(Unary::Minus),
        1 => Some(Unary::Plus),
        2 => Some(Unary::Not),
        3 => Some(Unary::Invert),
        4 => Some(Unary::MinusUnsigned),
        _ => None,
    }
}

/// The operator with this number, if there is one.
fn binary_of(number: u32) -> Option<Binary>
    ensures some { IfSome result (λ operator. number ≡ binary_number operator) }
    ensures none { IfNone result ((operator : Binary) → number ≡ binary_number operator → ⊥) }
{
    match number {
        0 => Some(Binary::Multiply),
        1 => Some(Binary::Divide),
        2 => Some(Binary::Remainder),
        3 => Some(Binary::Add),
        4 => Some(Binary::Subtract),
        5 => Some(Binary::ShiftLeft),
        6 => Some(Binary::ShiftRight),
        7 => Some(Binary::Less),
        8 => Some(Binary::LessEqual),
        9 => Some(Binary::Greater),
        10 => Some(Binary::GreaterEqual),
        11 => Some(Binary::Equal),
        12 => Some(Binary::Unequal),
        13 => Some(Binary::BitAnd),
        14 => Some(Binary::BitXor),
        15 => Some(Binary::BitOr),
        16 => Some(Binary::MultiplyUnsigned),
        17 => Some(Binary::DivideUnsigned),
        18 => Some(Binary::RemainderUnsigned),
        19 => Some(Binary::AddUnsigned),
        20 => Some(Binary::SubtractUnsigned),
        21 => Some(Binary::ShiftLeftUnsigned),
        22 => Some(Binary::ShiftRightUnsigned),
        23 => Some(Binary::LessUnsigned),
        24 => Some(Binary::LessEqualUnsigned),
        25 => Some(Binary::GreaterUnsigned),
        26 => Some(Binary::GreaterEqualUnsigned),
        _ => None,
    }
}
