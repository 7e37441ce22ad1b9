// The rules on jumps, branches and labels in turn, until none of them matches anywhere.
ghost use Rattle.std.specs.Prelude.{⊤};
ghost use Rattle.c65_pass.specs.Rounds.{Only, IsRuleOf, IsPassed};

use crate::drop::drop_unused_labels;
use crate::find::{find_jump, find_noted};
use crate::hops::follow_chains;
use c65_base::{Options, Refusal};
use c65_code::Seg;
use c65_know::Noted;
use c65_live::LiveTable;
use c65_pass::{Rules, run_flow_rule, run_jump_rule, run_rules};
use std::alloc::Global;

// The rules on jumps and branches to chains of JMPs.
const LONG_JUMPS: u8 = 4;

const LONG_BRANCHES: u8 = 5;

// The rule on labels to which no line refers. Those before it ask the lines alone, those behind it the notes too.
const UNUSED_LABELS: u8 = 7;

// The rules by their numbers.
#[derive(Drop)]
struct FlowRules;

impl Rules for FlowRules {
    ghost first = { 1 };

    ghost end = { 10 };

    ghost among = { Only };

    ghost ready = { λ rules code. ⊤ };

    fn run(&mut self, alloc: Global, code: &mut Noted, turn: u8) -> Result<usize, Refusal> {
        if turn == LONG_JUMPS || turn == LONG_BRANCHES {
            return follow_chains(alloc, code, turn);
        }
        if turn < UNUSED_LABELS {
            let find = |s: &Seg, l: &LiveTable, at: usize| find_jump(alloc, s, l, at, turn);
            return run_jump_rule(alloc, code, turn, find);
        }
        if turn == UNUSED_LABELS {
            return drop_unused_labels(alloc, code);
        }
        let find = |n: &Noted, l: &LiveTable, at: usize| find_noted(alloc, n, l, at, turn);
        run_flow_rule(alloc, code, turn, find)
    }
}

/// Rewrites by the rules on jumps, branches and labels, 1 to 9, until none of them matches anywhere, and answers how
/// often. After a refusal some of the rewritings are made.
pub fn optimise_flow(alloc: Global, code: &mut Noted, _options: &Options) -> Result<usize, Refusal>
    ensures { IsPassed (IsRuleOf 1 9) code.old code.new result }
{
    run_rules(alloc, code, &mut FlowRules, 1, 10)
}
