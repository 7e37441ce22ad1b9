// Several rules over the lines of a function, each place by all of them, until none of them matches anywhere.
ghost use Rattle.std.specs.Prelude.{◌≡◌, ◌≤◌, ◌<◌, ℕ, [], IfOk, IfErr, OnOk};
ghost use Rattle.c65_base.specs.declared.refusal.Refusal.TheVariants.{OutOfMemory};
ghost use Rattle.c65_code.specs.Segments.{IsSegment};
ghost use Rattle.c65_live.specs.Tables.{IsLiveTable};
ghost use Rattle.c65_pass.specs.Passes.{Answers, IsTableOf, counted};
ghost use Rattle.c65_pass.specs.Rewriting.{Keeps, rewritten};
ghost use Rattle.c65_pass.specs.Rounds.{Only, InTurn, FindsAmong, AreFree, AreGood, RulesRewrite, IsPassed};
ghost use Rattle.c65_pass.specs.Rules.{match_at};

use crate::rewrite::Rewrite;
use crate::run::rewrite;
use c65_base::Refusal;
use c65_know::Noted;
use c65_live::LiveTable;

// How many lines before a rewriting are looked at again: a window that it completes begins there.
const BACK: usize = 3;

/// The rules from `first` on and before `end`, with the function that answers what each of them makes at a place.
#[derive(Drop)]
pub struct Group<F> {
    pub first: u8,
    pub end: u8,
    pub find: F,
}

// What the first of the rules makes at a place that matches there.
#[tactic(auto, using(crate::proofs::Groups::rule_clean, crate::proofs::Groups::none_found, crate::proofs::Groups::one_found))]
fn find_at<F: Fn(&Noted, &LiveTable, usize, u8) -> Result<Option<Rewrite>, Refusal>>(
    code: &Noted,
    live: &LiveTable,
    at: usize,
    group: &Group<F>,
) -> Result<Option<Rewrite>, Refusal>
    requires callable { (n : _) (l : _) (at : ℕ) (rule : ℕ) → group.now.first ≤ rule → rule < group.now.end → F.pre group.now.find n l at rule }
    requires exact { (n : _) (l : _) (at : ℕ) (rule : ℕ) (r : _) → F.post group.now.find n l at rule r → Answers (match_at rule [] n.now l.now at) r }
    ensures { FindsAmong (InTurn group.now.first group.now.end Only) code.now live.now at result }
{
    'rules: for rule in group.first..group.end {
        if let Some(found) = (group.find)(code, live, at, rule)? {
            return Ok(Some(found));
        }
    }
    Ok(None)
}

// The table of the lines that a rewriting makes.
fn follow(code: &Noted, live: &mut LiveTable, found: &Rewrite) -> Result<(), Refusal>
    requires keeps { Keeps code.now.lines found.now }
    requires table { IsTableOf code.now live.old }
    ensures ok { OnOk result (IsLiveTable (rewritten code.now.lines found.now) code.now.out live.new) }
    ensures refused { IfErr result (λ refusal. refusal ≡ OutOfMemory) }
{
    live.replace(code.seg(), found.at(), found.count(), found.lines())
}

// From the first line to the last, and a few lines back after a rewriting. The table goes along.
fn sweep<F: Fn(&Noted, &LiveTable, usize, u8) -> Result<Option<Rewrite>, Refusal>>(
    code: &mut Noted,
    live: &mut LiveTable,
    group: &Group<F>,
) -> Result<usize, Refusal>
    requires callable { (n : _) (l : _) (at : ℕ) (rule : ℕ) → group.now.first ≤ rule → rule < group.now.end → F.pre group.now.find n l at rule }
    requires exact { (n : _) (l : _) (at : ℕ) (rule : ℕ) (r : _) → F.post group.now.find n l at rule r → Answers (match_at rule [] n.now l.now at) r }
    requires good { AreGood (InTurn group.now.first group.now.end Only) }
    requires table { IsTableOf code.old live.old }
    ensures table { IfOk result (λ _. IsTableOf code.new live.new) }
    ensures chain { (n : ℕ) × RulesRewrite (InTurn group.now.first group.now.end Only) code.old.out code.old.lines n code.new.lines × IfOk result (λ made. made ≡ counted n) }
    ensures none { IfOk result (λ made. made ≡ 0 → AreFree (InTurn group.now.first group.now.end Only) code.new) }
    ensures same { IfOk result (λ made. made ≡ 0 → code.new ≡ code.old) }
    ensures segment { IsSegment code.old.lines }
    ensures out { code.new.out ≡ code.old.out }
    ensures refused { IfErr result (λ refusal. refusal ≡ OutOfMemory) }
{
    let _kept = code.seg();
    let mut made: usize = 0;
    let mut at = 0;
    while at < code.seg().lines().len() {
        let Some(found) = find_at(code, live, at, group)? else {
            at += 1;
            continue;
        };
        follow(code, live, &found)?;
        rewrite(code, found)?;
        made = made.saturating_add(1);
        at = at.saturating_sub(BACK);
    }
    Ok(made)
}

/// Rewrites by the rules of a group until none of them matches anywhere, and answers how often. The table of what is live goes along.
/// Its function answers exactly what a rule makes at a place, or that memory is wanted. After a refusal some of the rewritings are made.
pub fn run_group<F: Fn(&Noted, &LiveTable, usize, u8) -> Result<Option<Rewrite>, Refusal>>(
    code: &mut Noted,
    live: &mut LiveTable,
    group: &Group<F>,
) -> Result<usize, Refusal>
    requires callable { (n : _) (l : _) (at : ℕ) (rule : ℕ) → group.now.first ≤ rule → rule < group.now.end → F.pre group.now.find n l at rule }
    requires exact { (n : _) (l : _) (at : ℕ) (rule : ℕ) (r : _) → F.post group.now.find n l at rule r → Answers (match_at rule [] n.now l.now at) r }
    requires good { AreGood (InTurn group.now.first group.now.end Only) }
    requires table { IsTableOf code.old live.old }
    ensures passed { IsPassed (InTurn group.now.first group.now.end Only) code.old code.new result }
    ensures table { IfOk result (λ _. IsTableOf code.new live.new) }
{
    let mut made: usize = 0;
    loop {
        let more = sweep(code, live, group)?;
        if more == 0 {
            return Ok(made);
        }
        made = made.saturating_add(more);
    }
}
