// Which structure, union or enumeration a specifier names (C90 6.5.2.3).
ghost use Rattle.std.specs.Prelude.{◌≡◌};
ghost use Rattle.c65_base.specs.Answers.{Gives};
ghost use Rattle.c65_ctype.specs.Trees.{tag};
ghost use Rattle.c65_ctype.specs.Views.{qty_of};
ghost use Rattle.c65_csem.specs.Places.{plain};
ghost use Rattle.c65_tree.specs.View.{specifier_of, specifiers_of};
ghost use Rattle.c65_elab_scope.specs.Scopes.{scope_of};
ghost use Rattle.c65_elab_declare.specs.Tagging.{new_tag, is_kind, same_kind, meant_tag, named_tag, begun_tag, named_enumeration, begun_enumeration, is_signed_word, any_signed, is_signed};

use crate::parts::fault;
use c65_base::{Code, Name, Pos, Refusal};
use c65_csem::int_type;
use c65_ctype::{CType, QType};
use c65_elab_scope::{Meaning, Scope};
use c65_ints::IntType;
use c65_tree::{Specifier, SpecifierKind, Specifiers};

/// The type of a structure or union.
pub fn tag_type(number: u32) -> QType
    ensures { qty_of result ≡ plain (tag number) }
{
    QType {
        ty: CType::Struct(number),
        is_const: false,
        is_volatile: false,
    }
}

/// A new structure or union with this tag in the innermost block.
fn new_tag(scope: &mut Scope, is_union: bool, name: Option<Name>) -> Result<u32, Refusal>
    ensures { Gives (λ n. (n, scope_of scope.new)) result (new_tag (scope_of scope.old) is_union name) }
{
    match name {
        None => scope.open_tag(is_union),
        Some(name) => {
            let tag = scope.open_tag(is_union)?;
            scope.bind_tag(name, Meaning::Tag(tag))?;
            Ok(tag)
        }
    }
}

/// Whether a tag is there and of this kind.
fn is_kind(kind: Option<bool>, is_union: bool) -> bool
    ensures { result ≡ is_kind kind is_union }
{
    match kind {
        Some(kind) => kind == is_union,
        None => false,
    }
}

/// The structure or union that a tag means, which has to be of the same kind.
fn same_kind(scope: &Scope, meaning: Meaning, is_union: bool, pos: Pos) -> Result<u32, Refusal>
    ensures { Gives (λ n. n) result (same_kind (scope_of scope.now) meaning is_union pos) }
{
    let Meaning::Tag(tag) = meaning else {
        return Err(fault(Code::TagKind, pos));
    };
    if is_kind(scope.types().kind(tag), is_union) {
        Ok(tag)
    } else {
        Err(fault(Code::TagKind, pos))
    }
}

/// What a tag means, or where the flag says so, what it means in the innermost block.
fn meant_tag(scope: &Scope, name: Name, alone: bool) -> Option<Meaning>
    ensures { result ≡ meant_tag (scope_of scope.now) name alone }
{
    if alone {
        return scope.own_tag(name);
    }
    match scope.find_tag(name) {
        Some(bound) => Some(bound.meaning),
        None => None,
    }
}

/// The structure or union of a tag. The flag says that the tag stands alone in its declaration,
/// which then is of the innermost block.
pub fn named_tag(
    scope: &mut Scope,
    is_union: bool,
    name: Option<Name>,
    alone: bool,
    pos: Pos,
) -> Result<u32, Refusal>
    ensures { Gives (λ n. (n, scope_of scope.new)) result (named_tag (scope_of scope.old) is_union name alone pos) }
{
    let Some(name) = name else {
        return new_tag(scope, is_union, None);
    };
    match meant_tag(scope, name, alone) {
        Some(meaning) => same_kind(scope, meaning, is_union, pos),
        None => new_tag(scope, is_union, Some(name)),
    }
}

/// The structure or union whose members follow: its tag is of the innermost block.
pub fn begun_tag(
    scope: &mut Scope,
    is_union: bool,
    name: Option<Name>,
    pos: Pos,
) -> Result<u32, Refusal>
    ensures { Gives (λ n. (n, scope_of scope.new)) result (begun_tag (scope_of scope.old) is_union name pos) }
{
    let Some(name) = name else {
        return new_tag(scope, is_union, None);
    };
    let Some(meaning) = scope.own_tag(name) else {
        return new_tag(scope, is_union, Some(name));
    };
    let tag = same_kind(scope, meaning, is_union, pos)?;
    if scope.types().get(tag).is_some() {
        return Err(fault(Code::TagKind, pos));
    }
    Ok(tag)
}

/// The type of an enumeration that was declared before.
pub fn named_enumeration(scope: &Scope, name: Option<Name>, pos: Pos) -> Result<QType, Refusal>
    ensures { Gives qty_of result (named_enumeration (scope_of scope.now) name pos) }
{
    let Some(name) = name else {
        return Err(fault(Code::Specifiers, pos));
    };
    match scope.find_tag(name) {
        None => Err(fault(Code::Undeclared, pos)),
        Some(bound) => match bound.meaning {
            Meaning::Enumeration => Ok(int_type(IntType::Int)),
            _ => Err(fault(Code::TagKind, pos)),
        },
    }
}

/// Begins an enumeration, whose tag is of the innermost block.
pub fn begin_enumeration(scope: &mut Scope, name: Option<Name>, pos: Pos) -> Result<(), Refusal>
    ensures { Gives (λ x. scope_of scope.new) result (begun_enumeration (scope_of scope.old) name pos) }
{
    let Some(name) = name else {
        return Ok(());
    };
    if scope.own_tag(name).is_some() {
        return Err(fault(Code::TagKind, pos));
    }
    scope.bind_tag(name, Meaning::Enumeration)
}

/// Whether a specifier is the word `signed`.
fn is_signed_word(item: &Specifier) -> bool
    ensures { result ≡ is_signed_word (specifier_of item.now) }
{
    match &item.kind {
        SpecifierKind::Signed => true,
        _ => false,
    }
}

/// Whether one of the specifiers is the word `signed`.
fn any_signed(items: &[Specifier]) -> bool
    ensures { result ≡ any_signed items.now }
{
    for item in items {
        if is_signed_word(item) {
            return true;
        }
    }
    false
}

/// Whether the type of specifiers is written with `signed`.
pub fn is_signed(specifiers: &Specifiers) -> bool
    ensures { result ≡ is_signed (specifiers_of specifiers.now) }
{
    any_signed(&specifiers.items)
}
