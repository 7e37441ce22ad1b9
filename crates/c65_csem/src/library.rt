// The prototypes of the library's functions (C90 7.7, 7.9, 7.10, 7.11).
ghost use Rattle.std.specs.Prelude.{◌≡◌, [], ◌∷◌, IfOk, find, bytes_eq};
ghost use Rattle.c65_ctype.specs.Trees.{Ty, QTy, qual, end, more};
ghost use Rattle.c65_ctype.specs.Views.{ty_of, qty_of, qtys_of, fn_of};
ghost use Rattle.c65_base.specs.Library.{library_name};
ghost use Rattle.c65_csem.specs.Library as library;

use crate::kinds::{int_type, pointer_to};
use c65_base::Library;
use c65_ctype::{CType, FnType, QType};
use c65_ints::IntType;
use std::alloc::{AllocError, Global};

const ALL: [Library; 10] = [
    Library::Putchar,
    Library::Getchar,
    Library::Puts,
    Library::Exit,
    Library::Memcpy,
    Library::Memset,
    Library::Strcmp,
    Library::Strcpy,
    Library::Strlen,
    Library::Printf,
];

fn library_among(functions: &[Library], spelling: &[u8]) -> Option<Library>
    ensures { result ≡ find (λ l. bytes_eq (library_name l) spelling.now) functions.now }
{
    for function in functions {
        if function.name() == spelling {
            return Some(*function);
        }
    }
    None
}

/// The function of the library that has this name in C.
pub fn library_named(spelling: &[u8]) -> Option<Library>
    ensures { result ≡ library.library_named spelling.now }
{
    library_among(&ALL, spelling)
}

fn plain_char(signed_chars: bool) -> IntType
    ensures { result ≡ library.plain_char signed_chars }
{
    if signed_chars {
        IntType::SChar
    } else {
        IntType::UChar
    }
}

/// A pointer to a type, which may be const.
fn to(alloc: Global, is_const: bool, ty: CType) -> Result<QType, AllocError>
    ensures { IfOk result (λ q. qty_of q ≡ library.to is_const (ty_of ty)) }
{
    let target = QType {
        ty,
        is_const,
        is_volatile: false,
    };
    pointer_to(alloc, target)
}

/// `char *`, or `const char *`.
fn text(alloc: Global, is_const: bool, signed_chars: bool) -> Result<QType, AllocError>
    ensures { IfOk result (λ q. qty_of q ≡ library.to is_const (Ty.int (library.plain_char signed_chars))) }
{
    to(alloc, is_const, CType::Int(plain_char(signed_chars)))
}

/// `void *`, or `const void *`.
fn bytes(alloc: Global, is_const: bool) -> Result<QType, AllocError>
    ensures { IfOk result (λ q. qty_of q ≡ library.to is_const Ty.void) }
{
    to(alloc, is_const, CType::Void)
}

fn nothing() -> QType
    ensures { qty_of result ≡ library.nothing }
{
    QType {
        ty: CType::Void,
        is_const: false,
        is_volatile: false,
    }
}

fn number() -> QType
    ensures { qty_of result ≡ library.number }
{
    int_type(IntType::Int)
}

fn size() -> QType
    ensures { qty_of result ≡ library.size }
{
    int_type(IntType::UInt)
}

fn one<T: Drop>(alloc: Global, a: T) -> Result<Vec<T>, AllocError>
    ensures { IfOk result (λ v. v.items ≡ a ∷ []) }
{
    let mut types = Vec::new(alloc);
    types.push(a)?;
    Ok(types)
}

fn two<T: Drop>(alloc: Global, a: T, b: T) -> Result<Vec<T>, AllocError>
    ensures { IfOk result (λ v. v.items ≡ a ∷ b ∷ []) }
{
    let mut types = Vec::new(alloc);
    types.push(a)?;
    types.push(b)?;
    Ok(types)
}

fn three<T: Drop>(alloc: Global, a: T, b: T, c: T) -> Result<Vec<T>, AllocError>
    ensures { IfOk result (λ v. v.items ≡ a ∷ b ∷ c ∷ []) }
{
    let mut types = Vec::new(alloc);
    types.push(a)?;
    types.push(b)?;
    types.push(c)?;
    Ok(types)
}

fn library_result(alloc: Global, signed_chars: bool, function: Library) -> Result<QType, AllocError>
    ensures { IfOk result (λ q. qty_of q ≡ library.library_result signed_chars function) }
{
    match function {
        Library::Putchar | Library::Getchar | Library::Puts | Library::Strcmp | Library::Printf =>
            Ok(number()),
        Library::Exit => Ok(nothing()),
        Library::Memcpy | Library::Memset => bytes(alloc, false),
        Library::Strcpy => text(alloc, false, signed_chars),
        Library::Strlen => Ok(size()),
    }
}

/// Two texts, the second one of which is const.
fn texts(alloc: Global, is_const: bool, signed_chars: bool) -> Result<Vec<QType>, AllocError>
    ensures { IfOk result (λ v. qtys_of v.items ≡ more (library.to is_const (Ty.int (library.plain_char signed_chars))) (more (library.const_text signed_chars) end)) }
{
    let from = text(alloc, true, signed_chars)?;
    match text(alloc, is_const, signed_chars) {
        Ok(to) => two(alloc, to, from),
        Err(refused) => {
            drop(from);
            Err(refused)
        }
    }
}

/// Bytes, const bytes and their number.
fn copied(alloc: Global) -> Result<Vec<QType>, AllocError>
    ensures { IfOk result (λ v. qtys_of v.items ≡ more library.bytes (more library.const_bytes (more library.size end))) }
{
    let from = bytes(alloc, true)?;
    match bytes(alloc, false) {
        Ok(to) => three(alloc, to, from, size()),
        Err(refused) => {
            drop(from);
            Err(refused)
        }
    }
}

fn library_params(
    alloc: Global,
    signed_chars: bool,
    function: Library,
) -> Result<Vec<QType>, AllocError>
    ensures { IfOk result (λ v. qtys_of v.items ≡ library.library_params signed_chars function) }
{
    match function {
        Library::Getchar => Ok(Vec::new(alloc)),
        Library::Putchar | Library::Exit => one(alloc, number()),
        Library::Puts | Library::Strlen | Library::Printf => {
            one(alloc, text(alloc, true, signed_chars)?)
        }
        Library::Memcpy => copied(alloc),
        Library::Memset => three(alloc, bytes(alloc, false)?, number(), size()),
        Library::Strcmp => texts(alloc, true, signed_chars),
        Library::Strcpy => texts(alloc, false, signed_chars),
    }
}

/// Whether a function of the library takes further arguments (C90 6.7.1, 7.8).
pub fn takes_more(function: Library) -> bool
    ensures { result ≡ library.takes_more function }
{
    matches!(function, Library::Printf)
}

/// The prototype of a function of the library, where plain char is signed or not.
pub fn library_type(
    alloc: Global,
    signed_chars: bool,
    function: Library,
) -> Result<FnType, AllocError>
    ensures { IfOk result (λ f. fn_of f ≡ library.library_type signed_chars function) }
{
    let given = library_result(alloc, signed_chars, function)?;
    let params = library_params(alloc, signed_chars, function)?;
    let variadic = takes_more(function);
    Ok(FnType::new(given, Some(params), variadic, false))
}
