// The rules on the software stack in turn, until none of them matches anywhere.
ghost use Rattle.std.specs.Prelude.{◌≡◌};
ghost use Rattle.c65_optstack.specs.Stack.{rule_of_turn, InItsTurn};
ghost use Rattle.c65_pass.specs.Passes.{IsTableOf};
ghost use Rattle.c65_pass.specs.Rounds.{IsRuleOf, IsPassed};

use crate::find::find;
use c65_base::{Options, Refusal};
use c65_know::Noted;
use c65_live::LiveTable;
use c65_pass::{Rules, run_rule, run_rules};
use std::alloc::Global;

fn rule_of_turn(turn: u8) -> u8
    ensures { result ≡ rule_of_turn turn }
{
    match turn {
        36 => 38,
        38 => 36,
        _ => turn,
    }
}

// The rules in their turns, with what is live in the lines that they rewrite.
#[derive(Drop)]
struct StackRules {
    live: LiveTable,
}

impl Rules for StackRules {
    ghost first = { 33 };

    ghost end = { 39 };

    ghost among = { InItsTurn };

    ghost ready = { λ rules code. IsTableOf code rules.live };

    fn run(&mut self, alloc: Global, code: &mut Noted, turn: u8) -> Result<usize, Refusal> {
        let rule = rule_of_turn(turn);
        let find = |n: &Noted, l: &LiveTable, at: usize| find(alloc, n, l, at, rule);
        run_rule(alloc, code, &mut self.live, rule, find)
    }
}

/// Rewrites by the rules on the software stack, 33 to 38, until none of them matches anywhere, and answers how often. After
/// a refusal some of the rewritings are made.
pub fn optimise_stack(alloc: Global, code: &mut Noted, _options: &Options) -> Result<usize, Refusal>
    ensures { IsPassed (IsRuleOf 33 38) code.old code.new result }
{
    let live = LiveTable::new(alloc, code.seg())?;
    run_rules(alloc, code, &mut StackRules { live }, 33, 39)
}
