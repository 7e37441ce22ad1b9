// The parser's call with what the grammar says of it.
ghost use Rattle.c65_tree.specs.View.{unit_of};
ghost use Rattle.c65_base.specs.Limits.{limit_of};
ghost use Rattle.c65_base.specs.declared.refusal.Size.TheVariants.{Depth};
ghost use Rattle.c65_parse_law_units.specs.Units.{AcceptsUnit};

use c65_base::Refusal;
use c65_decl::parse_unit;
use c65_scan::Token;
use c65_tree::Unit;
use std::alloc::Global;

/// The unit whose tokens these are (C90 6.7): none that the grammar derives within the limit of depth is refused.
pub fn read_unit(alloc: Global, tokens: &[Token]) -> Result<Unit, Refusal>
    ensures { AcceptsUnit (limit_of Depth) tokens.now unit_of result }
{
    parse_unit(alloc, tokens)
}
