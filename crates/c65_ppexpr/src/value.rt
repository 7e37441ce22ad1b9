// The values of #if expressions and what operators make of them (C90 6.8.1): every type of C is long or unsigned long
// there.
ghost use Rattle.std.specs.Prelude.{◌≡◌, pos, not, false, None};
ghost use Rattle.c65_ints.specs.Ranges.{InRange};
ghost use Rattle.c65_ppexpr.specs.Arithmetic;

use c65_base::BinaryOp;
use c65_ints::{IntType, add, div, mul, rem, shl, shr, sub, wrap};

/// Why an expression of the right form has no value.
#[derive(Clone, Copy)]
pub enum Flaw {
    /// A zero divisor.
    Division,
    /// A shift by less than 0 or by 32 or more.
    Shift,
}

/// A value of type long or unsigned long. Where it has a flaw its number says nothing.
#[derive(Clone, Copy)]
pub struct Value {
    pub is_unsigned: bool,
    pub number: i64,
    pub flaw: Option<Flaw>,
}

/// Operators before an operand (C90 6.3.3).
#[derive(Clone, Copy)]
pub enum Prefix {
    Neg,
    Plus,
    BitNot,
    Not,
}

/// Operators between two operands (C90 6.3.5 to 6.3.14).
#[derive(Clone, Copy)]
pub enum Infix {
    Both(BinaryOp),
    And,
    Or,
}

fn type_of(is_unsigned: bool) -> IntType
    ensures { result ≡ Arithmetic.type_of is_unsigned }
{
    if is_unsigned {
        IntType::ULong
    } else {
        IntType::Long
    }
}

/// A value without a flaw.
pub fn make_value(is_unsigned: bool, number: i64) -> Value
    ensures { result ≡ Arithmetic.value is_unsigned number }
{
    Value {
        is_unsigned,
        number,
        flaw: None,
    }
}

fn truth(is_true: bool) -> Value
    ensures { result ≡ Arithmetic.truth is_true }
{
    make_value(false, if is_true { 1 } else { 0 })
}

fn with_flaw(flaw: Option<Flaw>, value: Value) -> Value
    ensures { result ≡ Arithmetic.with_flaw flaw value }
{
    Value {
        is_unsigned: value.is_unsigned,
        number: value.number,
        flaw,
    }
}

/// Whether a value counts as false.
pub fn is_zero(value: Value) -> bool
    ensures { result ≡ Arithmetic.is_zero value }
{
    value.number == 0
}

fn number_in(is_unsigned: bool, value: Value) -> i64
    ensures value { result ≡ Arithmetic.number_in is_unsigned value }
    ensures in_range { InRange (Arithmetic.type_of is_unsigned) result }
{
    wrap(type_of(is_unsigned), value.number)
}

fn converted(is_unsigned: bool, value: Value) -> Value
    ensures { result ≡ Arithmetic.converted is_unsigned value }
{
    Value {
        is_unsigned,
        number: number_in(is_unsigned, value),
        flaw: value.flaw,
    }
}

/// A number less the value, in the value's type.
fn subtracted(from: i64, value: Value) -> Value
    ensures { result ≡ Arithmetic.subtracted from value }
{
    let ty = type_of(value.is_unsigned);
    let number = number_in(value.is_unsigned, value);
    Value {
        is_unsigned: value.is_unsigned,
        number: sub(ty, wrap(ty, from), number),
        flaw: value.flaw,
    }
}

/// What a prefix operator makes of a value.
pub fn prefixed(op: Prefix, value: Value) -> Value
    ensures { result ≡ Arithmetic.prefixed op value }
{
    match op {
        Prefix::Neg => subtracted(0, value),
        Prefix::Plus => value,
        Prefix::BitNot => subtracted(-1, value),
        Prefix::Not => with_flaw(value.flaw, truth(is_zero(value))),
    }
}

/// The 32 bits of a number.
fn bits(number: i64) -> u32
    ensures { result ≡ Arithmetic.bits number }
{
    wrap(IntType::ULong, number) as u32
}

fn of_bits(is_unsigned: bool, bits: u32) -> Value
    ensures { result ≡ Arithmetic.of_bits is_unsigned bits }
{
    make_value(is_unsigned, wrap(type_of(is_unsigned), i64::from(bits)))
}

fn unless_none(is_unsigned: bool, flaw: Flaw, number: Option<i64>) -> Value
    ensures { result ≡ Arithmetic.unless_none is_unsigned flaw number }
{
    match number {
        Some(number) => make_value(is_unsigned, number),
        None => Value {
            is_unsigned,
            number: 0,
            flaw: Some(flaw),
        },
    }
}

/// What an operator makes of two numbers of one type; a shift's second number may be any.
fn applied(op: BinaryOp, is_unsigned: bool, a: i64, b: i64) -> Value
    requires a { InRange (Arithmetic.type_of is_unsigned) a }
    requires b { Arithmetic.is_shift op ≡ false → InRange (Arithmetic.type_of is_unsigned) b }
    ensures { result ≡ Arithmetic.applied op is_unsigned a b }
{
    let ty = type_of(is_unsigned);
    match op {
        BinaryOp::Mul => make_value(is_unsigned, mul(ty, a, b)),
        BinaryOp::Div => unless_none(is_unsigned, Flaw::Division, div(ty, a, b)),
        BinaryOp::Rem => unless_none(is_unsigned, Flaw::Division, rem(ty, a, b)),
        BinaryOp::Add => make_value(is_unsigned, add(ty, a, b)),
        BinaryOp::Sub => make_value(is_unsigned, sub(ty, a, b)),
        BinaryOp::Shl => unless_none(is_unsigned, Flaw::Shift, shl(ty, a, b)),
        BinaryOp::Shr => unless_none(is_unsigned, Flaw::Shift, shr(ty, a, b)),
        BinaryOp::Lt => truth(a < b),
        BinaryOp::Gt => truth(b < a),
        BinaryOp::Le => truth(a <= b),
        BinaryOp::Ge => truth(b <= a),
        BinaryOp::Eq => truth(a == b),
        BinaryOp::Ne => truth(a != b),
        BinaryOp::BitAnd => of_bits(is_unsigned, bits(a) & bits(b)),
        BinaryOp::BitXor => of_bits(is_unsigned, bits(a) ^ bits(b)),
        BinaryOp::BitOr => of_bits(is_unsigned, bits(a) | bits(b)),
    }
}

fn is_shift(op: BinaryOp) -> bool
    ensures { result ≡ Arithmetic.is_shift op }
{
    match op {
        BinaryOp::Shl | BinaryOp::Shr => true,
        _ => false,
    }
}

/// The value, with the first flaw of two operands.
fn keeping(first: Option<Flaw>, second: Option<Flaw>, value: Value) -> Value
    ensures { result ≡ Arithmetic.keeping first second value }
{
    match first {
        Some(flaw) => with_flaw(Some(flaw), value),
        None => match second {
            Some(flaw) => with_flaw(Some(flaw), value),
            None => value,
        },
    }
}

/// Whether the common type of two operands is unsigned long.
fn is_common_unsigned(a: Value, b: Value) -> bool
    ensures { result ≡ Arithmetic.is_common_unsigned a b }
{
    a.is_unsigned || b.is_unsigned
}

fn calculated(op: BinaryOp, a: Value, b: Value) -> Value
    ensures { result ≡ Arithmetic.calculated op a b }
{
    if is_shift(op) {
        return applied(op, a.is_unsigned, number_in(a.is_unsigned, a), b.number);
    }
    let is_unsigned = is_common_unsigned(a, b);
    applied(
        op,
        is_unsigned,
        number_in(is_unsigned, a),
        number_in(is_unsigned, b),
    )
}

fn both_true(a: Value, b: Value) -> Value
    ensures { result ≡ Arithmetic.both_true a b }
{
    if is_zero(a) {
        truth(false)
    } else {
        with_flaw(b.flaw, truth(!is_zero(b)))
    }
}

fn one_true(a: Value, b: Value) -> Value
    ensures { result ≡ Arithmetic.one_true a b }
{
    if is_zero(a) {
        with_flaw(b.flaw, truth(!is_zero(b)))
    } else {
        truth(true)
    }
}

/// What an operator makes of two values.
pub fn combined(op: Infix, a: Value, b: Value) -> Value
    ensures { result ≡ Arithmetic.combined op a b }
{
    match op {
        Infix::Both(op) => keeping(a.flaw, b.flaw, calculated(op, a, b)),
        Infix::And => keeping(a.flaw, None, both_true(a, b)),
        Infix::Or => keeping(a.flaw, None, one_true(a, b)),
    }
}

/// The value of `condition ? a : b`.
pub fn chosen(condition: Value, a: Value, b: Value) -> Value
    ensures { result ≡ Arithmetic.chosen condition a b }
{
    let is_unsigned = is_common_unsigned(a, b);
    let choice = if is_zero(condition) { b } else { a };
    keeping(condition.flaw, None, converted(is_unsigned, choice))
}
