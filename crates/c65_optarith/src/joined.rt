// One line in place of two masks of a kind, or of a load and a mask.
ghost use Rattle.std.specs.Prelude.{◌≡◌};
ghost use Rattle.c65_pass.specs.ArithRules.{mixed, with_byte, joined_masks};

use crate::operations::may_join;
use c65_code::{Line, Operand};
use c65_mach::{Mode, Op};

// What the second of two operations makes of the byte of the first.
fn mixed(op: Op, value: u8, other: u8) -> Option<u8>
    ensures { result ≡ mixed op value other }
{
    match op {
        Op::And => Some(value & other),
        Op::Ora => Some(value | other),
        Op::Eor => Some(value ^ other),
        _ => None,
    }
}

fn with_byte(op: Op, value: Option<u8>) -> Option<Line>
    ensures { result ≡ with_byte op value }
{
    Some(Line::Do(op, Mode::Immediate, Operand::Byte(value?)))
}

/// The line in place of two.
pub fn joined_masks(line: &Line, next: &Line) -> Option<Line>
    ensures { result ≡ joined_masks line.now next.now }
{
    match (line, next) {
        (
            Line::Do(op, Mode::Immediate, Operand::Byte(value)),
            Line::Do(second, Mode::Immediate, Operand::Byte(other)),
        ) if may_join(*op, *second) => with_byte(*op, mixed(*second, *value, *other)),
        _ => None,
    }
}
