// Rules in turn, until none of them matches anywhere.
ghost use Rattle.std.specs.Prelude.{◌≡◌, ◌≤◌, ◌<◌, ◌+◌, ℕ, [], IfOk};
ghost use Rattle.c65_know.specs.Known.{Annotated, annotated};
ghost use Rattle.c65_pass.specs.Passes.{Answers, IsTableOf, IsGood, last_flow_rule};
ghost use Rattle.c65_pass.specs.Rounds.{Only, InTurn, AreGood, IsPassed};
ghost use Rattle.c65_pass.specs.Rules.{match_at};

use crate::lines::run_lines;
use crate::rewrite::{Pass, Rewrite};
use crate::run::run_pass_on;
use c65_base::Refusal;
use c65_code::{Items, Literals, Seg};
use c65_know::Noted;
use c65_live::LiveTable;
use std::alloc::Global;

/// Rules that are run in turns.
pub trait Rules {
    ghost first: { ℕ };

    ghost end: { ℕ };

    ghost among: { ℕ → ℕ → Type 0 };

    /// What the object keeps about the lines, from one turn to the next.
    ghost ready: { Self → Annotated → Type 0 };

    /// Rewrites by the rules of a turn until none of them matches anywhere, and answers how often.
    fn run(&mut self, alloc: Global, code: &mut Noted, turn: u8) -> Result<usize, Refusal>
        requires first { first ≤ turn }
        requires before { turn < end }
        requires ready { ready self.old code.old }
        ensures passed { IsPassed (among turn) code.old code.new result }
        ensures ready { IfOk result (λ _. ready self.new code.new) };
}

/// A pass of one rule that asks no literals, with the table of what is live, which goes along. Its function answers exactly what
/// the rule makes at a place, or that memory is wanted.
pub fn run_rule<F: Fn(&Noted, &LiveTable, usize) -> Result<Option<Rewrite>, Refusal> + Drop>(
    alloc: Global,
    code: &mut Noted,
    live: &mut LiveTable,
    rule: u8,
    find: F,
) -> Result<usize, Refusal>
    requires callable { (n : _) (l : _) (at : ℕ) → F.pre find n l at }
    requires exact { (n : _) (l : _) (at : ℕ) (r : _) → F.post find n l at r → Answers (match_at rule [] n.now l.now at) r }
    requires good { IsGood rule [] }
    requires asks { last_flow_rule < rule }
    requires table { IsTableOf code.old live.old }
    ensures passed { IsPassed (Only rule) code.old code.new result }
    ensures table { IfOk result (λ _. IsTableOf code.new live.new) }
{
    let literals = Literals {
        items: Items::from_vec(Vec::new(alloc)),
    };
    let pass = Pass::new(rule, &literals, find);
    run_pass_on(code, live, &pass)
}

/// A pass of one of the rules on jumps, branches and labels, which ask neither literals nor what is live. Its function answers exactly
/// what the rule makes at a place, or that memory is wanted.
pub fn run_flow_rule<F: Fn(&Noted, &LiveTable, usize) -> Result<Option<Rewrite>, Refusal> + Drop>(
    alloc: Global,
    code: &mut Noted,
    rule: u8,
    find: F,
) -> Result<usize, Refusal>
    requires callable { (n : _) (l : _) (at : ℕ) → F.pre find n l at }
    requires exact { (n : _) (l : _) (at : ℕ) (r : _) → F.post find n l at r → Answers (match_at rule [] n.now l.now at) r }
    requires good { IsGood rule [] }
    requires flow { rule ≤ last_flow_rule }
    ensures { IsPassed (Only rule) code.old code.new result }
{
    let literals = Literals {
        items: Items::from_vec(Vec::new(alloc)),
    };
    let pass = Pass::new(rule, &literals, find);
    run_pass_on(code, &mut LiveTable::empty(alloc), &pass)
}

/// A pass of one of the rules on jumps, branches and labels that ask the lines alone. Its function answers exactly what the rule
/// makes at a place, or that memory is wanted.
pub fn run_jump_rule<F: Fn(&Seg, &LiveTable, usize) -> Result<Option<Rewrite>, Refusal> + Drop>(
    alloc: Global,
    code: &mut Noted,
    rule: u8,
    find: F,
) -> Result<usize, Refusal>
    requires callable { (n : _) (l : _) (at : ℕ) → F.pre find n l at }
    requires exact { (n : _) (l : _) (at : ℕ) (r : _) → F.post find n l at r → Answers (match_at rule [] (annotated n.now.lines n.now.out) l.now at) r }
    requires good { IsGood rule [] }
    requires flow { rule ≤ last_flow_rule }
    ensures { IsPassed (Only rule) code.old code.new result }
{
    let literals = Literals {
        items: Items::from_vec(Vec::new(alloc)),
    };
    let pass = Pass {
        rule,
        literals: &literals,
        find,
    };
    run_lines(alloc, code, &pass)
}

// The turn behind one; behind the last comes the first.
fn next_turn(turn: u8, first: u8, end: u8) -> u8
    requires { turn < end }
    ensures next { turn + 1 < end → result ≡ turn + 1 }
    ensures again { end ≡ turn + 1 → result ≡ first }
{
    let next = turn + 1;
    if next == end { first } else { next }
}

// How many turns in a row are known to match nowhere, behind one that made so many rewritings: it is one of them.
fn idle_after(idle: u8, now: usize) -> u8
    requires { idle < 255 }
    ensures more { now ≡ 0 → result ≡ idle + 1 }
    ensures one { (now ≡ 0 → ⊥) → result ≡ 1 }
{
    if now == 0 { idle + 1 } else { 1 }
}

/// Rewrites by the rules of the turns from `first` on and before `end`, one behind the other and from the first
/// again, until none of them matches anywhere, and answers how often.
pub fn run_rules<R: Rules>(
    alloc: Global,
    code: &mut Noted,
    rules: &mut R,
    first: u8,
    end: u8,
) -> Result<usize, Refusal>
    requires first { first ≡ R.first }
    requires end { end ≡ R.end }
    requires some { first < end }
    requires ready { R.ready rules.old code.old }
    requires good { AreGood (InTurn R.first R.end R.among) }
    ensures { IsPassed (InTurn R.first R.end R.among) code.old code.new result }
{
    let mut made: usize = 0;
    let mut idle: u8 = 0;
    let mut turn = first;
    'turns: while idle < end - first {
        let now = rules.run(alloc, code, turn)?;
        made = made.saturating_add(now);
        idle = idle_after(idle, now);
        turn = next_turn(turn, first, end);
    }
    Ok(made)
}
