// The rules for the 65C02 in turn, until none of them matches anywhere.
ghost use Rattle.c65_pass.specs.Rounds.{IsRuleOf, IsPassed};

use crate::find::find;
use c65_base::{Options, Refusal};
use c65_know::Noted;
use c65_live::LiveTable;
use c65_pass::{Group, run_group};
use std::alloc::Global;

/// Rewrites by the rules for the 65C02, 41 to 45, until none of them matches anywhere, and answers how often. It is for code that
/// no 6502 is to run: the lines that it makes are of the 65C02 alone. After a refusal some of the rewritings are made.
pub fn optimise_c02(alloc: Global, code: &mut Noted, _options: &Options) -> Result<usize, Refusal>
    ensures { IsPassed (IsRuleOf 41 45) code.old code.new result }
{
    let mut live = LiveTable::new(alloc, code.seg())?;
    let group = Group {
        first: 41,
        end: 46,
        find: |n: &Noted, l: &LiveTable, at: usize, rule: u8| find(alloc, n, l, at, rule),
    };
    run_group(code, &mut live, &group)
}
