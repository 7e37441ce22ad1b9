// Kinds of types and expressions, as operators ask for them (C90 6.1.2.5, 6.2.2.1).
ghost use Rattle.std.specs.Prelude.{◌≡◌};
ghost use Rattle.c65_base.specs.declared.refusal.Refusal.TheVariants.{At};
ghost use Rattle.c65_ctype.specs.Views.{ty_of, qty_of, types_of};
ghost use Rattle.c65_csem.specs.Views.{typed_of};
ghost use Rattle.c65_csem.specs.Places as places;
ghost use Rattle.c65_elab_convert.specs.Categories as categories;

use c65_base::{Code, Pos, Refusal};
use c65_csem::{TExpr, TKind, member_at};
use c65_ctype::{CType, QType, Types};
use c65_ints::IntType;

/// What conversions and operators ask of a type. `Other` is an array or a function, which no value
/// has.
#[derive(Clone, Copy)]
pub enum Category {
    Int(IntType),
    Pointer,
    /// A structure or union.
    Tag,
    Void,
    Other,
}

/// The category of a type.
pub fn classify(ty: &CType) -> Category
    ensures { result ≡ categories.category_of (ty_of ty.now) }
{
    match ty {
        CType::Int(kind) => Category::Int(*kind),
        CType::Pointer(_) => Category::Pointer,
        CType::Struct(_) => Category::Tag,
        CType::Void => Category::Void,
        CType::Array(_, _) | CType::Function(_) => Category::Other,
    }
}

/// The fault of an operand that does not fit: void expressions have one of their own.
pub(crate) fn unfit(code: Code, category: Category) -> Code
    ensures { result ≡ categories.unfit code category }
{
    match category {
        Category::Void => Code::VoidValue,
        Category::Int(_) | Category::Pointer | Category::Tag | Category::Other => code,
    }
}

/// The fault of two operands that do not fit.
pub(crate) fn unfit_pair(code: Code, a: Category, b: Category) -> Code
    ensures { result ≡ categories.unfit_pair code a b }
{
    unfit(unfit(code, b), a)
}

/// Two operands that do not fit, at a place.
pub(crate) fn unfit_operands(pos: Pos, a: TExpr, b: TExpr) -> Refusal
    ensures { result ≡ At (categories.unfit_operands (typed_of a) (typed_of b)) pos }
{
    let code = unfit_pair(Code::Operands, classify(&a.ty.ty), classify(&b.ty.ty));
    drop(a);
    drop(b);
    Refusal::fault(code, pos)
}

/// One operand that does not fit, at a place.
pub(crate) fn unfit_operand(code: Code, pos: Pos, e: TExpr) -> Refusal
    ensures { result ≡ At (categories.unfit_operand code (typed_of e)) pos }
{
    let code = unfit(code, classify(&e.ty.ty));
    drop(e);
    Refusal::fault(code, pos)
}

pub(crate) fn is_void(ty: &CType) -> bool
    ensures { result ≡ places.is_void (ty_of ty.now) }
{
    match ty {
        CType::Void => true,
        _ => false,
    }
}

pub(crate) fn is_function(ty: &CType) -> bool
    ensures { result ≡ categories.is_function (ty_of ty.now) }
{
    match ty {
        CType::Function(_) => true,
        _ => false,
    }
}

pub(crate) fn is_array(ty: &CType) -> bool
    ensures { result ≡ categories.is_array (ty_of ty.now) }
{
    match ty {
        CType::Array(_, _) => true,
        _ => false,
    }
}

/// Whether a value of this type is an integer or a pointer.
pub(crate) fn is_scalar_type(q: &QType) -> bool
    ensures { result ≡ categories.is_scalar_type (qty_of q.now) }
{
    match classify(&q.ty) {
        Category::Int(_) | Category::Pointer => true,
        Category::Tag | Category::Void | Category::Other => false,
    }
}

/// Whether an expression names an object, or a part of one, that is there after the expression
/// (C90 6.2.2.1).
pub fn is_lvalue(e: &TExpr) -> bool
    ensures { result ≡ categories.is_lvalue (typed_of e.now) }
{
    match &e.kind {
        TKind::Literal(_) | TKind::Object(_) | TKind::Deref(_) => true,
        TKind::Member(object, _) => is_lvalue(object),
        _ => false,
    }
}

/// Whether an expression is what a call gave, or a part of it (C90 6.3.2.2).
pub fn is_spilled(e: &TExpr) -> bool
    ensures { result ≡ categories.is_spilled (typed_of e.now) }
{
    match &e.kind {
        TKind::Spill(_, _) => true,
        TKind::Member(object, _) => is_spilled(object),
        _ => false,
    }
}

/// Whether an expression names a bit-field.
pub fn is_bit_field(types: &Types, e: &TExpr) -> bool
    ensures { result ≡ places.is_bit_field (types_of types.now) (typed_of e.now) }
{
    match &e.kind {
        TKind::Member(object, index) => match member_at(types, &object.ty.ty, *index) {
            Some(member) => member.bits.is_some(),
            None => false,
        },
        _ => false,
    }
}
