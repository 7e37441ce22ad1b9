// The rules on loads, stores and transfers in turn, until none of them matches anywhere.
ghost use Rattle.c65_pass.specs.Rounds.{IsRuleOf, IsPassed};

use crate::find::find;
use c65_base::{Options, Refusal};
use c65_know::Noted;
use c65_live::LiveTable;
use c65_pass::{Group, run_group};
use std::alloc::Global;

/// Rewrites by the rules on loads, stores and transfers, 10 to 23, until none of them matches anywhere, and answers how
/// often. After a refusal some of the rewritings are made.
pub fn optimise_load(alloc: Global, code: &mut Noted, _options: &Options) -> Result<usize, Refusal>
    ensures { IsPassed (IsRuleOf 10 23) code.old code.new result }
{
    let mut live = LiveTable::new(alloc, code.seg())?;
    let group = Group {
        first: 10,
        end: 24,
        find: |n: &Noted, l: &LiveTable, at: usize, rule: u8| find(alloc, n, l, at, rule),
    };
    run_group(code, &mut live, &group)
}
