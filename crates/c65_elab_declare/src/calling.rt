// The words `__fastcall__` and `__cdecl__` of a declarator.
ghost use Rattle.std.specs.Prelude.{◌≡◌};
ghost use Rattle.c65_base.specs.Answers.{Gives};
ghost use Rattle.c65_tree.specs.View.{declarator_of};
ghost use Rattle.c65_elab_declare.specs.Calling.{has_function, first_word, other_word, is_cdecl, name_place};

use crate::parts::fault;
use c65_base::{Code, Pos, Refusal};
use c65_tree::{Declarator, DeclaratorKind};

/// Whether a declarator has a function part.
fn has_function(declarator: &Declarator) -> bool
    ensures { result ≡ has_function (declarator_of declarator.now) }
{
    match &declarator.kind {
        DeclaratorKind::Abstract | DeclaratorKind::Name(_) => false,
        DeclaratorKind::Function(_, _) => true,
        DeclaratorKind::Paren(inner)
        | DeclaratorKind::Calling(_, inner)
        | DeclaratorKind::Pointer(_, _, inner)
        | DeclaratorKind::Array(inner, _) => has_function(inner),
    }
}

/// The first word of a declarator: whether it is `__cdecl__`, and its place.
fn first_word(declarator: &Declarator) -> Option<(bool, Pos)>
    ensures { result ≡ first_word (declarator_of declarator.now) }
{
    match &declarator.kind {
        DeclaratorKind::Abstract | DeclaratorKind::Name(_) => None,
        DeclaratorKind::Calling(cdecl, _) => Some((*cdecl, declarator.pos)),
        DeclaratorKind::Paren(inner)
        | DeclaratorKind::Pointer(_, _, inner)
        | DeclaratorKind::Array(inner, _)
        | DeclaratorKind::Function(inner, _) => first_word(inner),
    }
}

/// The place of the first word that is another one.
fn other_word(declarator: &Declarator, cdecl: bool) -> Option<Pos>
    ensures { result ≡ other_word (declarator_of declarator.now) cdecl }
{
    match &declarator.kind {
        DeclaratorKind::Abstract | DeclaratorKind::Name(_) => None,
        DeclaratorKind::Calling(word, inner) => {
            if *word == cdecl {
                other_word(inner, cdecl)
            } else {
                Some(declarator.pos)
            }
        }
        DeclaratorKind::Paren(inner)
        | DeclaratorKind::Pointer(_, _, inner)
        | DeclaratorKind::Array(inner, _)
        | DeclaratorKind::Function(inner, _) => other_word(inner, cdecl),
    }
}

/// Whether a declarator says `__cdecl__`. Refuses `Specifiers` at the first word where there is no
/// function part to which it could belong, and at the first that differs from an earlier one.
pub fn is_cdecl(declarator: &Declarator) -> Result<bool, Refusal>
    ensures { Gives (λ b. b) result (is_cdecl (declarator_of declarator.now)) }
{
    let Some((cdecl, pos)) = first_word(declarator) else {
        return Ok(false);
    };
    if !has_function(declarator) {
        return Err(fault(Code::Specifiers, pos));
    }
    match other_word(declarator, cdecl) {
        Some(pos) => Err(fault(Code::Specifiers, pos)),
        None => Ok(cdecl),
    }
}

/// The place of a declarator's name, or of where it would stand.
pub fn name_place(declarator: &Declarator) -> Pos
    ensures { result ≡ name_place (declarator_of declarator.now) }
{
    match &declarator.kind {
        DeclaratorKind::Abstract | DeclaratorKind::Name(_) => declarator.pos,
        DeclaratorKind::Paren(inner)
        | DeclaratorKind::Calling(_, inner)
        | DeclaratorKind::Pointer(_, _, inner)
        | DeclaratorKind::Array(inner, _)
        | DeclaratorKind::Function(inner, _) => name_place(inner),
    }
}
