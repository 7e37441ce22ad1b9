// C's operators on values of one type. Signed results wrap, and the right shift of a negative value is arithmetic.
ghost use Rattle.std.specs.Prelude.{◌≡◌, ◌^◌, ◌<◌, pos, IfSome};
ghost use Rattle.c65_ints.specs.Ranges.{wrap_of, InRange, Congruent};
ghost use Rattle.c65_ints.specs.Results.{sum_of, difference_of, product_of, quotient_of, remainder_of, count_of, shifted_left_of, shifted_right_of};

use crate::types::IntType;

/// The one value of the type that differs from this number by a multiple of 2 to the width.
pub fn wrap(ty: IntType, value: i64) -> i64
    ensures value { result ≡ wrap_of ty value }
    ensures in_range { InRange ty result }
    ensures congruent { Congruent ty value result }
{
    let modulus = ty.modulus();
    let residue = value.rem_euclid(modulus);
    if ty.is_signed() && residue >= modulus / 2 {
        residue - modulus
    } else {
        residue
    }
}

/// A value of one type, converted to another (C90 6.2.1.2).
pub fn convert(from: IntType, to: IntType, value: i64) -> i64
    requires { InRange from value }
    ensures value { result ≡ wrap_of to value }
    ensures in_range { InRange to result }
{
    let _ = from;
    wrap(to, value)
}

/// The sum, wrapped.
pub fn add(ty: IntType, a: i64, b: i64) -> i64
    requires a { InRange ty a }
    requires b { InRange ty b }
    ensures value { result ≡ sum_of ty a b }
    ensures in_range { InRange ty result }
{
    wrap(ty, a + b)
}

/// The difference, wrapped.
pub fn sub(ty: IntType, a: i64, b: i64) -> i64
    requires a { InRange ty a }
    requires b { InRange ty b }
    ensures value { result ≡ difference_of ty a b }
    ensures in_range { InRange ty result }
{
    wrap(ty, a - b)
}

/// The product, wrapped.
pub fn mul(ty: IntType, a: i64, b: i64) -> i64
    requires a { InRange ty a }
    requires b { InRange ty b }
    ensures value { result ≡ product_of ty a b }
    ensures in_range { InRange ty result }
{
    match ty {
        // The product of two such values may exceed an i64.
        IntType::ULong => ((a as u64 * b as u64) % 4_294_967_296) as i64,
        _ => wrap(ty, a * b),
    }
}

/// The quotient cut toward zero and wrapped, or `None` exactly for a zero divisor.
pub fn div(ty: IntType, a: i64, b: i64) -> Option<i64>
    requires a { InRange ty a }
    requires b { InRange ty b }
    ensures value { result ≡ quotient_of ty a b }
    ensures in_range { IfSome result (λ z. InRange ty z) }
{
    if b == 0 { None } else { Some(wrap(ty, a / b)) }
}

/// The dividend less divisor times cut quotient, or `None` exactly for a zero divisor.
pub fn rem(ty: IntType, a: i64, b: i64) -> Option<i64>
    requires a { InRange ty a }
    requires b { InRange ty b }
    ensures value { result ≡ remainder_of a b }
    ensures in_range { IfSome result (λ z. InRange ty z) }
{
    let _ = ty;
    if b == 0 { None } else { Some(a % b) }
}

// The count of a shift, where it is from 0 on and below the width.
fn shift_count(ty: IntType, count: i64) -> Option<u32>
    ensures value { result ≡ count_of ty count }
    ensures bound { IfSome result (λ c. c < 32) }
{
    if count < 0 {
        None
    } else if count < ty.width() as i64 {
        Some(count as u32)
    } else {
        None
    }
}

// 2 to a count of less than 32.
fn power(count: u32) -> i64
    requires { count < 32 }
    ensures { result ≡ pos (2 ^ count) }
{
    (1_u64 << count) as i64
}

/// The value times 2 to the count, wrapped, or `None` exactly for a count below 0 or not below the width.
pub fn shl(ty: IntType, a: i64, count: i64) -> Option<i64>
    requires { InRange ty a }
    ensures value { result ≡ shifted_left_of ty a count }
    ensures in_range { IfSome result (λ z. InRange ty z) }
{
    let count = shift_count(ty, count)?;
    Some(wrap(ty, a * power(count)))
}

/// The greatest whole number not above the value by 2 to the count, or `None` exactly for a count below 0 or not below
/// the width.
pub fn shr(ty: IntType, a: i64, count: i64) -> Option<i64>
    requires { InRange ty a }
    ensures value { result ≡ shifted_right_of ty a count }
    ensures in_range { IfSome result (λ z. InRange ty z) }
{
    let count = shift_count(ty, count)?;
    Some(a.div_euclid(power(count)))
}
