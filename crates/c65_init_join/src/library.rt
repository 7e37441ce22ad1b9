// The types of the main function (C90 5.1.2.2.1), and functions as types.
ghost use Rattle.std.specs.Prelude.{◌≡◌, [], ◌∷◌, false, IfOk};
ghost use Rattle.c65_ctype.specs.Trees.{int, function, qual};
ghost use Rattle.c65_ctype.specs.Views.{qty_of, fn_of};
ghost use Rattle.c65_csem.specs.Library.{plain_char, number, text};
ghost use Rattle.c65_init_join.specs.Prototypes as prototypes;

use c65_csem::{int_type, pointer_to};
use c65_ctype::{CType, FnType, QType};
use c65_ints::IntType;
use std::alloc::{AllocError, Global};

fn number() -> QType
    ensures { qty_of result ≡ number }
{
    int_type(IntType::Int)
}

fn plain_char(signed_chars: bool) -> IntType
    ensures { result ≡ plain_char signed_chars }
{
    if signed_chars {
        IntType::SChar
    } else {
        IntType::UChar
    }
}

/// `char *`, where plain char is signed or not.
fn text(alloc: Global, signed_chars: bool) -> Result<QType, AllocError>
    ensures { IfOk result (λ q. qty_of q ≡ text signed_chars) }
{
    pointer_to(alloc, int_type(plain_char(signed_chars)))
}

fn two(alloc: Global, a: QType, b: QType) -> Result<Vec<QType>, AllocError>
    ensures { IfOk result (λ v. v.items ≡ a ∷ b ∷ []) }
{
    let mut types = Vec::new(alloc);
    types.push(a)?;
    types.push(b)?;
    Ok(types)
}

/// The type `int (int, char **)`, where plain char is signed or not.
pub fn main_with_words(alloc: Global, signed_chars: bool) -> Result<FnType, AllocError>
    ensures { IfOk result (λ f. fn_of f ≡ prototypes.main_with_words signed_chars) }
{
    let words = pointer_to(alloc, text(alloc, signed_chars)?)?;
    let params = two(alloc, number(), words)?;
    Ok(FnType::new(number(), Some(params), false, false))
}

/// The type `int (void)`.
pub fn main_alone(alloc: Global) -> FnType
    ensures { fn_of result ≡ prototypes.main_alone }
{
    FnType::new(number(), Some(Vec::new(alloc)), false, false)
}

/// A function's type as a type.
pub fn function(alloc: Global, of: &FnType) -> Result<QType, AllocError>
    ensures { IfOk result (λ q. qty_of q ≡ qual (function (fn_of of.now)) false false) }
{
    let of = of.copy(alloc)?;
    Ok(QType {
        ty: CType::Function(Box::new(alloc, of)?),
        is_const: false,
        is_volatile: false,
    })
}
