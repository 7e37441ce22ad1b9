// Constants.
ghost use Rattle.std.specs.Prelude.{◌≡◌};
ghost use Rattle.c65_csem.specs.Views.{typed_of};
ghost use Rattle.c65_genexpr.specs.Operands.{residue_of, negative, constant_in};

use c65_csem::{TExpr, TKind};

/// A value modulo 2 to the 32.
pub fn residue_of(value: i64) -> u32
    ensures { result ≡ residue_of value }
{
    value.rem_euclid(0x1_0000_0000) as u32
}

pub fn negative(number: u32) -> u32
    ensures { result ≡ negative number }
{
    0_u32.wrapping_sub(number)
}

/// The value of a constant.
pub fn constant_in(e: &TExpr) -> Option<i64>
    ensures { result ≡ constant_in (typed_of e.now) }
{
    match &e.kind {
        TKind::Const(z) => Some(*z),
        _ => None,
    }
}
