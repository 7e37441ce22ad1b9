// The parser's call with what the grammar says of its faults.
ghost use Rattle.c65_parse_law_sound.specs.Units.{EndsOnce};
ghost use Rattle.c65_base.specs.Limits.{limit_of};
ghost use Rattle.c65_base.specs.declared.refusal.Size.TheVariants.{Depth};
ghost use Rattle.c65_parse_law_faults.specs.Laws.{RefusesUnit};

use c65_base::Refusal;
use c65_decl::parse_unit;
use c65_scan::Token;
use c65_tree::Unit;
use std::alloc::Global;

/// The unit whose tokens these are (C90 6.7), or the fault of a token with which none goes on; the last token is the
/// only `End`.
pub fn refuse_unit(alloc: Global, tokens: &[Token]) -> Result<Unit, Refusal>
    requires { EndsOnce tokens.now }
    ensures { RefusesUnit (limit_of Depth) tokens.now result }
{
    parse_unit(alloc, tokens)
}
