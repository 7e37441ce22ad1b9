// Two lines, the second of them a call, for which one call stands.
ghost use Rattle.std.specs.Prelude.{◌≡◌, ◌≤◌};
ghost use Rattle.c65_code.specs.Rows.{number_of};
ghost use Rattle.c65_pass.specs.StackRules.{count_of, raising, lowering, routine_if, moved_at_once, moved_by_byte, zero_pushed, word_at_sp, is_taken_back};

use c65_code::{Callee, Count, Line, Operand, Routine};
use c65_mach::{Mode, Op};

fn number_of(count: Count) -> u8
    ensures number { result ≡ number_of count }
    ensures most { result ≤ 8 }
{
    match count {
        Count::One => 1,
        Count::Two => 2,
        Count::Three => 3,
        Count::Four => 4,
        Count::Five => 5,
        Count::Six => 6,
        Count::Seven => 7,
        Count::Eight => 8,
    }
}

fn count_of(number: u8) -> Option<Count>
    ensures { result ≡ count_of number }
{
    match number {
        1 => Some(Count::One),
        2 => Some(Count::Two),
        3 => Some(Count::Three),
        4 => Some(Count::Four),
        5 => Some(Count::Five),
        6 => Some(Count::Six),
        7 => Some(Count::Seven),
        8 => Some(Count::Eight),
        _ => None,
    }
}

fn raising(count: Option<Count>) -> Option<Routine>
    ensures { result ≡ raising count }
{
    match count {
        Some(count) => Some(Routine::IncSp(count)),
        None => None,
    }
}

fn lowering(count: Option<Count>) -> Option<Routine>
    ensures { result ≡ lowering count }
{
    match count {
        Some(count) => Some(Routine::DecSp(count)),
        None => None,
    }
}

fn routine_if(is: bool, routine: Routine) -> Option<Routine>
    ensures { result ≡ routine_if is routine }
{
    if is { Some(routine) } else { None }
}

/// AX pushed, and popped again.
pub fn is_taken_back(line: &Line, next: &Line) -> bool
    ensures { result ≡ is_taken_back line.now next.now }
{
    matches!(
        (line, next),
        (
            Line::Call(Callee::Routine(Routine::PushAx)),
            Line::Call(Callee::Routine(Routine::PopAx))
        )
    )
}

/// The software stack's pointer moved twice in one direction.
pub fn moved_at_once(line: &Line, next: &Line) -> Option<Routine>
    ensures { result ≡ moved_at_once line.now next.now }
{
    match (line, next) {
        (
            Line::Call(Callee::Routine(Routine::IncSp(one))),
            Line::Call(Callee::Routine(Routine::IncSp(other))),
        ) => raising(count_of(number_of(*one) + number_of(*other))),
        (
            Line::Call(Callee::Routine(Routine::DecSp(one))),
            Line::Call(Callee::Routine(Routine::DecSp(other))),
        ) => lowering(count_of(number_of(*one) + number_of(*other))),
        _ => None,
    }
}

/// The pointer moved by a byte in Y.
pub fn moved_by_byte(line: &Line, next: &Line) -> Option<Routine>
    ensures { result ≡ moved_by_byte line.now next.now }
{
    let Line::Do(Op::Ldy, Mode::Immediate, Operand::Byte(value)) = line else {
        return None;
    };
    match next {
        Line::Call(Callee::Routine(Routine::AddYSp)) => raising(count_of(*value)),
        Line::Call(Callee::Routine(Routine::SubYSp)) => lowering(count_of(*value)),
        _ => None,
    }
}

/// Zero pushed as a byte or as a word.
pub fn zero_pushed(line: &Line, next: &Line) -> Option<Routine>
    ensures { result ≡ zero_pushed line.now next.now }
{
    match (line, next) {
        (
            Line::Do(Op::Ldx, Mode::Immediate, Operand::Byte(value)),
            Line::Call(Callee::Routine(Routine::PushAx)),
        ) => routine_if(*value == 0, Routine::PushA0),
        (
            Line::Do(Op::Lda, Mode::Immediate, Operand::Byte(value)),
            Line::Call(Callee::Routine(Routine::PushA0)),
        ) => routine_if(*value == 0, Routine::Push0),
        _ => None,
    }
}

/// The word at the pointer.
pub fn word_at_sp(line: &Line, next: &Line) -> Option<Routine>
    ensures { result ≡ word_at_sp line.now next.now }
{
    let Line::Do(Op::Ldy, Mode::Immediate, Operand::Byte(value)) = line else {
        return None;
    };
    match next {
        Line::Call(Callee::Routine(Routine::LdAxYSp)) => {
            routine_if(*value == 1, Routine::LdAx0Sp)
        }
        Line::Call(Callee::Routine(Routine::StAxYSp)) => {
            routine_if(*value == 0, Routine::StAx0Sp)
        }
        _ => None,
    }
}
