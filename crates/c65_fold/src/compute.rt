// What an operator gives on integer constants (C90 6.3.3 to 6.3.15).
ghost use Rattle.std.specs.Prelude.{◌≡◌, ◌&&◌, pos, int_le};
ghost use Rattle.c65_ints.specs.Ranges.{modulus_of, residue, wrap_of, InRange};
ghost use Rattle.c65_fold.specs.Compute.{truth, unary_value, computed, binary_value};

use c65_base::{BinaryOp, UnaryOp};
use c65_ints::{IntType, add, div, mul, rem, shl, shr, sub, wrap};

pub fn truth(so: bool) -> i64
    ensures { result ≡ truth so }
{
    if so { 1 } else { 0 }
}

/// The bits of a value as a number.
fn bits(kind: IntType, value: i64) -> u32
    ensures { result ≡ residue (modulus_of kind) value }
{
    value.rem_euclid(kind.modulus()) as u32
}

/// The value that the bits are.
fn from_bits(kind: IntType, bits: u32) -> i64
    ensures { result ≡ wrap_of kind (pos bits) }
{
    wrap(kind, bits as i64)
}

fn same(x: i64, y: i64) -> bool
    ensures { result ≡ (int_le x y && int_le y x) }
{
    x <= y && y <= x
}

/// The value of an operator on one constant, as a value of this type.
pub fn unary_value(op: UnaryOp, kind: IntType, x: i64) -> Option<i64>
    ensures { result ≡ unary_value op kind x }
{
    match op {
        UnaryOp::Neg => Some(sub(kind, wrap(kind, 0), wrap(kind, x))),
        UnaryOp::BitNot => Some(sub(kind, wrap(kind, -1), wrap(kind, x))),
        UnaryOp::Not => Some(truth(x == 0)),
        _ => None,
    }
}

/// The value of an operator on two values of the type in which it computes, which are also given as
/// they are; none where it is undefined.
fn computed(op: BinaryOp, kind: IntType, a: i64, b: i64, x: i64, y: i64) -> Option<i64>
    requires a { InRange kind a }
    requires b { InRange kind b }
    ensures { result ≡ computed op kind a b x y }
{
    match op {
        BinaryOp::Mul => Some(mul(kind, a, b)),
        BinaryOp::Div => div(kind, a, b),
        BinaryOp::Rem => rem(kind, a, b),
        BinaryOp::Add => Some(add(kind, a, b)),
        BinaryOp::Sub => Some(sub(kind, a, b)),
        BinaryOp::Shl => shl(kind, a, y),
        BinaryOp::Shr => shr(kind, a, y),
        BinaryOp::Lt => Some(truth(x < y)),
        BinaryOp::Gt => Some(truth(y < x)),
        BinaryOp::Le => Some(truth(x <= y)),
        BinaryOp::Ge => Some(truth(y <= x)),
        BinaryOp::Eq => Some(truth(same(x, y))),
        BinaryOp::Ne => Some(truth(!same(x, y))),
        BinaryOp::BitAnd => Some(from_bits(kind, bits(kind, x) & bits(kind, y))),
        BinaryOp::BitXor => Some(from_bits(kind, bits(kind, x) ^ bits(kind, y))),
        BinaryOp::BitOr => Some(from_bits(kind, bits(kind, x) | bits(kind, y))),
    }
}

/// The value of an operator on two constants, as values of this type; none where it is undefined.
pub fn binary_value(op: BinaryOp, kind: IntType, x: i64, y: i64) -> Option<i64>
    ensures { result ≡ binary_value op kind x y }
{
    let a = wrap(kind, x);
    let b = wrap(kind, y);
    computed(op, kind, a, b, x, y)
}
