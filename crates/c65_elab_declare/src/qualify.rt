// Further qualifiers of types (C90 6.5.3).
ghost use Rattle.std.specs.Prelude.{◌≡◌};
ghost use Rattle.c65_ctype.specs.Views.{qty_of};
ghost use Rattle.c65_csem.specs.Places.{qualified};

use c65_ctype::{CType, QType};

/// A type with further qualifiers. Those of an array are those of its elements.
pub fn qualify(ty: &mut QType, is_const: bool, is_volatile: bool)
    ensures { qty_of ty.new ≡ qualified is_const is_volatile (qty_of ty.old) }
{
    match &mut ty.ty {
        CType::Array(element, _) => qualify(element, is_const, is_volatile),
        CType::Function(_) => {}
        _ => {
            ty.is_const = is_const || ty.is_const;
            ty.is_volatile = is_volatile || ty.is_volatile;
        }
    }
}
