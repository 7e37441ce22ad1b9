// Lists of one item, and of none.
ghost use Rattle.std.specs.Prelude.{◌≡◌, ◌&&◌, ◌==◌, not, length, map};
ghost use Rattle.c65_elab_declare.specs.Declarators.{part_of};

use c65_elab_declare::Part;
use c65_tree::{Param, Specifier};

/// Whether no declarator follows, and there is one specifier.
pub fn is_sole(alone: bool, items: &[Specifier]) -> bool
    ensures { result ≡ (alone && (length items.now == 1)) }
{
    alone && items.len() == 1
}

/// Whether there is one parameter, and no more may follow.
pub fn is_single(params: &[Param], variadic: bool) -> bool
    ensures { result ≡ ((length params.now == 1) && not variadic) }
{
    params.len() == 1 && !variadic
}

/// Whether no part stands before.
#[tactic(auto, using(crate::proofs::Parts::parts_many))]
pub fn is_first(parts: &[Part]) -> bool
    ensures { result ≡ (length (map part_of parts.now) == 0) }
{
    parts.is_empty()
}
