// Operators whose right operand is a constant, by shifts and masks (C90 6.3.5, 6.3.7).
ghost use Rattle.std.specs.Prelude.{◌≡◌, ◌≤◌, OnOk, OnErr};
ghost use Rattle.c65_genwide.specs.Lines.{with_lines, Keeps};
ghost use Rattle.c65_genshift.specs.Quick.{power_below, power_of, shift_if, scaled_if, rest_if, quick_by, quick_of, quick_lines, quick_code, elements_code};

use crate::masks::mask;
use crate::shifts::{is_short, place, put_calls, put_left_bits, put_left_byte, shift};
use c65_base::BinaryOp;
use c65_code::{Draft, TosOp, Width};
use c65_genload::scale;
use c65_genwide::{narrow, tos_of, width_of};
use c65_ints::IntType;
use std::alloc::AllocError;

/// What an operator on the left operand alone does, where the right one is a constant: a shift by so
/// many bits, or the bits that a number has.
#[derive(Clone, Copy, Debug, PartialEq, Eq)]
pub enum Quick {
    Shift(TosOp, u32),
    Mask(u32),
}

#[tactic(auto, using(crate::proofs::Powers::power_here, crate::proofs::Powers::power_lower))]
fn power_below(bound: u32, number: u32) -> Option<u32>
    requires { bound ≤ 32 }
    ensures { result ≡ power_below bound number }
{
    let mut above = bound;
    while above > 0 {
        above -= 1;
        if number == 1 << above {
            return Some(above);
        }
    }
    None
}

fn power_of(number: u32) -> Option<u32>
    ensures { result ≡ power_of number }
{
    power_below(32, number)
}

fn shift_if(op: TosOp, width: Width, count: u32) -> Option<Quick>
    ensures { result ≡ shift_if op width count }
{
    if is_short(op, width, count) {
        Some(Quick::Shift(op, count))
    } else {
        None
    }
}

fn quick_by(op: TosOp, width: Width, number: u32) -> Option<Quick>
    ensures { result ≡ quick_by op width number }
{
    match op {
        TosOp::Shl | TosOp::Shr | TosOp::Asr => shift_if(op, width, number),
        TosOp::Mul => shift_if(TosOp::Shl, width, power_of(number)?),
        TosOp::UDiv => shift_if(TosOp::Shr, width, power_of(number)?),
        TosOp::UMod => {
            power_of(number)?;
            Some(Quick::Mask(number - 1))
        }
        _ => None,
    }
}

/// What an operator in a type comes to, with a right operand that is known modulo 2 to the 32: a shift,
/// a product with a power of two, or an unsigned quotient or remainder by one.
pub fn quick_of(op: BinaryOp, kind: IntType, number: u32) -> Option<Quick>
    ensures { result ≡ quick_of op kind number }
{
    quick_by(tos_of(op, kind.is_signed()), width_of(kind), number)
}

fn put_lines(width: Width, quick: Quick, label: u32, draft: &mut Draft) -> Result<(), AllocError>
    ensures lines { OnOk result (draft.new ≡ with_lines draft.old (quick_lines width quick label)) }
    ensures kept { OnErr result (Keeps draft.old draft.new) }
{
    match quick {
        Quick::Shift(op, count) => shift(op, width, count, label, draft),
        Quick::Mask(number) => {
            mask(width, number, draft)?;
            place(label, draft)
        }
    }
}

/// Behind the left operand, in the operator's type. The label is placed once, also where no line leads
/// to it.
pub fn put_quick(
    kind: IntType,
    quick: Quick,
    label: u32,
    draft: &mut Draft,
) -> Result<(), AllocError>
    ensures lines { OnOk result (draft.new ≡ with_lines draft.old (quick_code kind quick label)) }
    ensures kept { OnErr result (Keeps draft.old draft.new) }
{
    put_lines(width_of(kind), quick, label, draft)?;
    narrow(kind, draft)
}

/// A number of elements of so many bytes becomes a number of bytes (C90 6.3.6).
pub fn put_elements(size: u32, draft: &mut Draft) -> Result<(), AllocError>
    ensures lines { OnOk result (draft.new ≡ with_lines draft.old (elements_code size)) }
    ensures kept { OnErr result (Keeps draft.old draft.new) }
{
    match power_of(size) {
        Some(exponent) if exponent < 4 => put_calls(TosOp::Shl, Width::Ax, exponent, draft),
        Some(exponent) if exponent < 8 => put_left_bits(exponent, draft),
        Some(exponent) if exponent < 16 => put_left_byte(exponent - 8, draft),
        _ => scale(size, draft),
    }
}
