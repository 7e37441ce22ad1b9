// What the values of constant expressions say of arrays, bit-fields and enumerators.
ghost use Rattle.std.specs.Prelude.{◌≡◌, ◌≤ℤ◌, IfOk};
ghost use Rattle.c65_ints.specs.Ranges.{greatest_of};
ghost use Rattle.c65_ints.specs.declared.types.IntType.TheVariants.{Int};
ghost use Rattle.c65_base.specs.Answers.{Gives};
ghost use Rattle.c65_ctype.specs.Views.{qty_of, field_of};
ghost use Rattle.c65_elab_declare.specs.Constants.{array_count, bit_width, enumerator_value, bit_type, field_in};

use crate::parts::fault;
use c65_base::{Code, Name, Pos, Refusal};
use c65_ctype::{CType, Field, QType};
use c65_ints::IntType;

/// The number of elements of an array (C90 6.5.4.2).
pub fn array_count(value: i64, pos: Pos) -> Result<u32, Refusal>
    ensures { Gives (λ n. n) result (array_count value pos) }
{
    if value > 0 && value <= 0xffff_ffff {
        Ok(value as u32)
    } else {
        Err(fault(Code::ArraySize, pos))
    }
}

/// The width of a bit-field (C90 6.5.2.1).
pub fn bit_width(value: i64, pos: Pos) -> Result<u8, Refusal>
    ensures { Gives (λ n. n) result (bit_width value pos) }
{
    if 0 <= value && value <= 16 {
        Ok(value as u8)
    } else {
        Err(fault(Code::BitField, pos))
    }
}

/// The value of an enumeration constant (C90 6.5.2.2).
pub fn enumerator_value(value: i64, pos: Pos) -> Result<i64, Refusal>
    ensures exact { Gives (λ z. z) result (enumerator_value value pos) }
    ensures small { IfOk result (λ z. z ≤ℤ greatest_of Int) }
{
    if -32_768 <= value && value <= 32_767 {
        Ok(value)
    } else {
        Err(fault(Code::EnumRange, pos))
    }
}

/// The type of a bit-field: plain `int` is unsigned there.
pub fn bit_type(ty: QType, signed: bool) -> QType
    ensures { qty_of result ≡ bit_type (qty_of ty) signed }
{
    match &ty.ty {
        CType::Int(IntType::Int) => {
            if signed {
                ty
            } else {
                QType {
                    ty: CType::Int(IntType::UInt),
                    is_const: ty.is_const,
                    is_volatile: ty.is_volatile,
                }
            }
        }
        _ => ty,
    }
}

/// A member; with a width it is a bit-field, whose type may be written with `signed`.
pub fn field(
    name: Option<Name>,
    ty: QType,
    signed: bool,
    width: Option<i64>,
    pos: Pos,
) -> Result<Field, Refusal>
    ensures { Gives field_of result (field_in name (qty_of ty) signed width pos) }
{
    match width {
        None => Ok(Field {
            name,
            ty,
            width: None,
            pos,
        }),
        Some(width) => {
            let width = bit_width(width, pos)?;
            Ok(Field {
                name,
                ty: bit_type(ty, signed),
                width: Some(width),
                pos,
            })
        }
    }
}
