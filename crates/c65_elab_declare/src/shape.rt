// The type that a whole declarator makes.
ghost use Rattle.std.specs.Prelude.{◌≡◌, map};
ghost use Rattle.c65_base.specs.Answers.{Gives};
ghost use Rattle.c65_ctype.specs.Views.{qty_of, types_of};
ghost use Rattle.c65_tree.specs.View.{declarator_of};
ghost use Rattle.c65_elab_declare.specs.Declarators.{part_of};
ghost use Rattle.c65_elab_declare.specs.Shapes.{shaped, shaped_for};

use crate::calling::{is_cdecl, name_place};
use crate::parts::{Part, Role, built};
use c65_base::Refusal;
use c65_ctype::{QType, Types};
use c65_tree::Declarator;
use std::alloc::Global;

/// The type that a declarator of these parts makes of a type; the flag says that it is of a
/// function definition.
pub fn shaped_for(
    alloc: Global,
    types: &Types,
    base: &QType,
    item: &Declarator,
    parts: &[Part],
    named: bool,
) -> Result<QType, Refusal>
    ensures { Gives qty_of result (shaped_for (types_of types.now) (qty_of base.now) (declarator_of item.now) (map part_of parts.now) named) }
{
    let cdecl = is_cdecl(item)?;
    let name = name_place(item);
    let role = Role { cdecl, named, name };
    built(alloc, types, base, parts, role)
}

/// The type that a declarator of these parts makes of a type.
pub fn shaped(
    alloc: Global,
    types: &Types,
    base: &QType,
    item: &Declarator,
    parts: &[Part],
) -> Result<QType, Refusal>
    ensures { Gives qty_of result (shaped (types_of types.now) (qty_of base.now) (declarator_of item.now) (map part_of parts.now)) }
{
    shaped_for(alloc, types, base, item, parts, false)
}
