// The rules on chains of JMPs.
ghost use Rattle.std.specs.Prelude.{◌≤◌};
ghost use Rattle.c65_pass.specs.Rounds.{Only, IsPassed};

use crate::find::find_jump;
use c65_base::Refusal;
use c65_code::Seg;
use c65_know::Noted;
use c65_live::LiveTable;
use c65_pass::{has_hop, run_jump_rule};
use std::alloc::Global;

/// Rewrites by one of the rules on jumps and branches to chains of JMPs, 4 and 5, until it matches nowhere, and answers how often. No
/// line is looked at where no JMP stands at a label.
pub fn follow_chains(alloc: Global, code: &mut Noted, rule: u8) -> Result<usize, Refusal>
    requires first { 4 ≤ rule }
    requires last { rule ≤ 5 }
    ensures { IsPassed (Only rule) code.old code.new result }
{
    if !has_hop(code.seg().lines()) {
        return Ok(0);
    }
    let find = |s: &Seg, l: &LiveTable, at: usize| find_jump(alloc, s, l, at, rule);
    run_jump_rule(alloc, code, rule, find)
}
