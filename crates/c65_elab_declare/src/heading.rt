// The declarator of a function definition (C90 6.7.1).
ghost use Rattle.std.specs.Prelude.{◌≡◌, map, option_map};
ghost use Rattle.c65_base.specs.Answers.{Gives};
ghost use Rattle.c65_ctype.specs.Views.{qty_of};
ghost use Rattle.c65_elab_declare.specs.Declarators.{part_of, formals_of};
ghost use Rattle.c65_elab_declare.specs.Headings.{heading_of, heading_from, formals_in, first_formals};

use crate::parts::{Formals, Part, fault};
use c65_base::{Code, Name, Pos, Refusal};
use c65_ctype::QType;

/// An enumeration constant.
#[derive(Clone, Copy)]
pub struct Enumerator {
    pub name: Name,
    pub value: i64,
}

/// The name of a function that is defined, its type, its parameters, which are a list of names where
/// it has no prototype, and the enumeration constants that its prototype declares.
#[derive(Drop)]
pub struct Heading {
    pub name: Option<Name>,
    pub ty: QType,
    pub formals: Formals,
    pub enumerators: Vec<Enumerator>,
}

/// The parameters of a part that is a function.
fn formals_in(part: Part) -> Option<Formals>
    ensures { option_map formals_of result ≡ formals_in (part_of part) }
{
    match part {
        Part::Function(formals, _) => Some(formals),
        _ => None,
    }
}

/// The parameters of the first part, if that is a function.
#[tactic(auto, using(crate::proofs::Lists::first_is, crate::proofs::Lists::none_first))]
fn first_formals(parts: Vec<Part>) -> Option<Formals>
    ensures { option_map formals_of result ≡ first_formals (map part_of parts.items) }
{
    let mut parts = parts;
    parts.truncate(1);
    match parts.pop() {
        Some(part) => formals_in(part),
        None => None,
    }
}

/// A definition's heading, whose parts have to begin with a function.
pub fn heading_of(
    name: Option<Name>,
    ty: QType,
    parts: Vec<Part>,
    enumerators: Vec<Enumerator>,
    pos: Pos,
) -> Result<Heading, Refusal>
    ensures { Gives heading_of result (heading_from name (qty_of ty) (map part_of parts.items) enumerators.items pos) }
{
    match first_formals(parts) {
        Some(formals) => Ok(Heading {
            name,
            ty,
            formals,
            enumerators,
        }),
        None => Err(fault(Code::TypeForm, pos)),
    }
}
