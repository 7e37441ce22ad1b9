// A rule over the lines of a function, until it matches nowhere.
ghost use Rattle.std.specs.Prelude.{◌≡◌, ◌<◌, ℕ, IfOk, IfErr, OnOk, OnErr};
ghost use Rattle.c65_base.specs.declared.refusal.Refusal.TheVariants.{OutOfMemory};
ghost use Rattle.c65_code.specs.Segments.{IsSegment};
ghost use Rattle.c65_know.specs.Known.{annotated};
ghost use Rattle.c65_pass.specs.Passes.{Answers, IsTableFor, IsGood, Rewrites, IsFree, IsRun, counted, last_flow_rule};
ghost use Rattle.c65_live.specs.Tables.{IsLiveTable};
ghost use Rattle.c65_pass.specs.Rewriting.{Keeps, rewritten};
ghost use Rattle.c65_pass.specs.Rules.{match_at};

use crate::rewrite::{Pass, Rewrite};
use c65_base::Refusal;
use c65_know::Noted;
use c65_live::LiveTable;
use std::alloc::Global;

// The last of the rules on jumps, branches and labels: none of them asks what is live.
const LAST_FLOW_RULE: u8 = 9;

/// What the rule makes at a place.
pub(crate) fn find_at<F: Fn(&Noted, &LiveTable, usize) -> Result<Option<Rewrite>, Refusal>>(
    code: &Noted,
    live: &LiveTable,
    at: usize,
    pass: &Pass<F>,
) -> Result<Option<Rewrite>, Refusal>
    requires callable { (n : _) (l : _) (at : ℕ) → F.pre pass.now.find n l at }
    requires exact { (n : _) (l : _) (at : ℕ) (r : _) → F.post pass.now.find n l at r → Answers (match_at pass.now.rule pass.now.literals.now.items n.now l.now at) r }
    ensures { Answers (match_at pass.now.rule pass.now.literals.now.items code.now live.now at) result }
{
    (pass.find)(code, live, at)
}

/// The lines with others in place of some.
pub(crate) fn rewrite(code: &mut Noted, rewrite: Rewrite) -> Result<(), Refusal>
    requires { Keeps code.old.lines rewrite }
    ensures ok { OnOk result (code.new ≡ annotated (rewritten code.old.lines rewrite) code.old.out) }
    ensures err { OnErr result (code.new ≡ code.old) }
    ensures refused { IfErr result (λ refusal. refusal ≡ OutOfMemory) }
{
    code.replace(rewrite.at(), rewrite.count(), rewrite.lines())
}

// The table of the lines that a rewriting by a rule makes, where the rule asks for one.
fn follow(code: &Noted, live: &mut LiveTable, found: &Rewrite, rule: u8) -> Result<(), Refusal>
    requires keeps { Keeps code.now.lines found.now }
    requires table { IsTableFor rule code.now live.old }
    ensures ok { OnOk result (last_flow_rule < rule → IsLiveTable (rewritten code.now.lines found.now) code.now.out live.new) }
    ensures refused { IfErr result (λ refusal. refusal ≡ OutOfMemory) }
{
    if rule <= LAST_FLOW_RULE {
        return Ok(());
    }
    live.replace(code.seg(), found.at(), found.count(), found.lines())
}

// From the first line to the last, each line again after a rewriting. The table goes along.
fn sweep<F: Fn(&Noted, &LiveTable, usize) -> Result<Option<Rewrite>, Refusal>>(
    code: &mut Noted,
    live: &mut LiveTable,
    pass: &Pass<F>,
) -> Result<usize, Refusal>
    requires callable { (n : _) (l : _) (at : ℕ) → F.pre pass.now.find n l at }
    requires exact { (n : _) (l : _) (at : ℕ) (r : _) → F.post pass.now.find n l at r → Answers (match_at pass.now.rule pass.now.literals.now.items n.now l.now at) r }
    requires good { IsGood pass.now.rule pass.now.literals.now.items }
    requires table { IsTableFor pass.now.rule code.old live.old }
    ensures table { IfOk result (λ _. IsTableFor pass.now.rule code.new live.new) }
    ensures chain { (n : ℕ) × Rewrites pass.now.rule pass.now.literals.now.items code.old.out code.old.lines n code.new.lines × IfOk result (λ made. made ≡ counted n) }
    ensures none { IfOk result (λ made. made ≡ 0 → IsFree pass.now.rule pass.now.literals.now.items code.new) }
    ensures same { IfOk result (λ made. made ≡ 0 → code.new ≡ code.old) }
    ensures segment { IsSegment code.old.lines }
    ensures out { code.new.out ≡ code.old.out }
    ensures refused { IfErr result (λ refusal. refusal ≡ OutOfMemory) }
{
    let _kept = code.seg();
    let mut made: usize = 0;
    let mut at = 0;
    while at < code.seg().lines().len() {
        let Some(found) = find_at(code, live, at, pass)? else {
            at += 1;
            continue;
        };
        follow(code, live, &found, pass.rule)?;
        rewrite(code, found)?;
        made = made.saturating_add(1);
    }
    Ok(made)
}

/// The same as `run_pass`, where the table is there: it goes along.
pub fn run_pass_on<F: Fn(&Noted, &LiveTable, usize) -> Result<Option<Rewrite>, Refusal>>(
    code: &mut Noted,
    live: &mut LiveTable,
    pass: &Pass<F>,
) -> Result<usize, Refusal>
    requires callable { (n : _) (l : _) (at : ℕ) → F.pre pass.now.find n l at }
    requires exact { (n : _) (l : _) (at : ℕ) (r : _) → F.post pass.now.find n l at r → Answers (match_at pass.now.rule pass.now.literals.now.items n.now l.now at) r }
    requires good { IsGood pass.now.rule pass.now.literals.now.items }
    requires table { IsTableFor pass.now.rule code.old live.old }
    ensures run { IsRun pass.now.rule pass.now.literals.now.items code.old code.new result }
    ensures table { IfOk result (λ _. IsTableFor pass.now.rule code.new live.new) }
{
    let mut made: usize = 0;
    loop {
        let more = sweep(code, live, pass)?;
        if more == 0 {
            return Ok(made);
        }
        made = made.saturating_add(more);
    }
}

/// Rewrites by a rule until it matches nowhere, and answers how often. After a refusal some of the rewritings are made.
pub fn run_pass<F: Fn(&Noted, &LiveTable, usize) -> Result<Option<Rewrite>, Refusal>>(
    alloc: Global,
    code: &mut Noted,
    pass: &Pass<F>,
) -> Result<usize, Refusal>
    requires callable { (n : _) (l : _) (at : ℕ) → F.pre pass.now.find n l at }
    requires exact { (n : _) (l : _) (at : ℕ) (r : _) → F.post pass.now.find n l at r → Answers (match_at pass.now.rule pass.now.literals.now.items n.now l.now at) r }
    requires good { IsGood pass.now.rule pass.now.literals.now.items }
    ensures { IsRun pass.now.rule pass.now.literals.now.items code.old code.new result }
{
    let mut live = LiveTable::new(alloc, code.seg())?;
    run_pass_on(code, &mut live, pass)
}
