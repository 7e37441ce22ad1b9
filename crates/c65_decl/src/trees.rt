// What a reading asks of trees.
ghost use Rattle.std.specs.Prelude.{◌≡◌, option_map};
ghost use Rattle.std.specs.List.{list_any};
ghost use Rattle.c65_tree.specs.View.{declarator_of, params_of, specifier_of, specifiers_of};
ghost use Rattle.c65_parse_grammar.specs.Parts;

use c65_base::Name;
use c65_tree::{Declarator, DeclaratorKind, Params, Specifier, SpecifierKind, Specifiers, Storage};

/// The name that a declarator declares.
pub fn declared_name(declarator: &Declarator) -> Option<Name>
    ensures { result ≡ Parts.declared_name (declarator_of declarator.now) }
{
    match &declarator.kind {
        DeclaratorKind::Abstract => None,
        DeclaratorKind::Name(name) => Some(*name),
        DeclaratorKind::Paren(d)
        | DeclaratorKind::Calling(_, d)
        | DeclaratorKind::Pointer(_, _, d)
        | DeclaratorKind::Array(d, _)
        | DeclaratorKind::Function(d, _) => declared_name(d),
    }
}

/// The parameters of the function part that is met first from the name outward.
pub fn nearest_params(declarator: &Declarator) -> Option<&Params>
    ensures { option_map (λ p. params_of p.now) result ≡ Parts.nearest_params (declarator_of declarator.now) }
{
    match &declarator.kind {
        DeclaratorKind::Abstract | DeclaratorKind::Name(_) => None,
        DeclaratorKind::Paren(d)
        | DeclaratorKind::Calling(_, d)
        | DeclaratorKind::Pointer(_, _, d)
        | DeclaratorKind::Array(d, _) => nearest_params(d),
        DeclaratorKind::Function(d, params) => match nearest_params(d) {
            Some(inner) => Some(inner),
            None => Some(params),
        },
    }
}

fn is_typedef_word(specifier: &Specifier) -> bool
    ensures { result ≡ Parts.is_typedef_specifier (specifier_of specifier.now) }
{
    match &specifier.kind {
        SpecifierKind::Storage(Storage::Typedef) => true,
        _ => false,
    }
}

fn is_type_specifier(specifier: &Specifier) -> bool
    ensures { result ≡ Parts.is_type_specifier (specifier_of specifier.now) }
{
    match &specifier.kind {
        SpecifierKind::Storage(_) | SpecifierKind::Const | SpecifierKind::Volatile => false,
        _ => true,
    }
}

fn any_typedef(items: &[Specifier]) -> bool
    ensures { result ≡ list_any (λ q. Parts.is_typedef_specifier (specifier_of q)) items.now }
{
    for item in items {
        if is_typedef_word(item) {
            return true;
        }
    }
    false
}

fn any_type(items: &[Specifier]) -> bool
    ensures { result ≡ list_any (λ q. Parts.is_type_specifier (specifier_of q)) items.now }
{
    for item in items {
        if is_type_specifier(item) {
            return true;
        }
    }
    false
}

/// Whether the names declared with these specifiers are types.
pub fn is_typedef(specifiers: &Specifiers) -> bool
    ensures { result ≡ Parts.is_typedef (specifiers_of specifiers.now) }
{
    any_typedef(&specifiers.items)
}

/// Whether a type specifier is among them.
pub fn has_type(specifiers: &Specifiers) -> bool
    ensures { result ≡ Parts.has_type (specifiers_of specifiers.now) }
{
    any_type(&specifiers.items)
}

/// Whether there are none.
pub fn is_empty(specifiers: &Specifiers) -> bool
    ensures { result ≡ Parts.is_empty (specifiers_of specifiers.now) }
{
    specifiers.items.is_empty()
}
