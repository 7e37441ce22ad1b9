// A rule that asks the lines alone, over a copy of a function's lines until it matches nowhere.
ghost use Rattle.std.specs.Prelude.{◌≡◌, ◌≤◌, ℕ, IfOk, IfErr, OnOk, OnErr};
ghost use Rattle.c65_base.specs.declared.refusal.Refusal.TheVariants.{OutOfMemory};
ghost use Rattle.c65_code.specs.Segments.{IsSegment};
ghost use Rattle.c65_know.specs.Known.{annotated};
ghost use Rattle.c65_pass.specs.Passes.{Answers, IsGood, Rewrites, IsFree, IsRun, counted, last_flow_rule};
ghost use Rattle.c65_pass.specs.Rewriting.{Keeps, rewritten};
ghost use Rattle.c65_pass.specs.Rules.{match_at};

use crate::once::{copied, find_in};
use crate::rewrite::{Pass, Rewrite};
use c65_base::Refusal;
use c65_code::Seg;
use c65_know::{Noted, annotate};
use c65_live::LiveTable;
use std::alloc::Global;

fn rewrite(seg: &mut Seg, rewrite: Rewrite) -> Result<(), Refusal>
    requires { Keeps seg.old.lines rewrite }
    ensures ok { OnOk result (annotated seg.new.lines seg.new.out ≡ annotated (rewritten seg.old.lines rewrite) seg.old.out) }
    ensures err { OnErr result (seg.new ≡ seg.old) }
    ensures refused { IfErr result (λ refusal. refusal ≡ OutOfMemory) }
{
    seg.replace(rewrite.at(), rewrite.count(), rewrite.lines())
}

// From the first line to the last, each line again after a rewriting.
fn sweep<F: Fn(&Seg, &LiveTable, usize) -> Result<Option<Rewrite>, Refusal>>(
    seg: &mut Seg,
    live: &LiveTable,
    pass: &Pass<F>,
) -> Result<usize, Refusal>
    requires callable { (n : _) (l : _) (at : ℕ) → F.pre pass.now.find n l at }
    requires exact { (n : _) (l : _) (at : ℕ) (r : _) → F.post pass.now.find n l at r → Answers (match_at pass.now.rule pass.now.literals.now.items (annotated n.now.lines n.now.out) l.now at) r }
    requires good { IsGood pass.now.rule pass.now.literals.now.items }
    requires flow { pass.now.rule ≤ last_flow_rule }
    ensures chain { (n : ℕ) × Rewrites pass.now.rule pass.now.literals.now.items seg.old.out seg.old.lines n seg.new.lines × IfOk result (λ made. made ≡ counted n) }
    ensures none { IfOk result (λ made. made ≡ 0 → IsFree pass.now.rule pass.now.literals.now.items (annotated seg.new.lines seg.new.out)) }
    ensures same { IfOk result (λ made. made ≡ 0 → annotated seg.new.lines seg.new.out ≡ annotated seg.old.lines seg.old.out) }
    ensures segment { IsSegment seg.old.lines }
    ensures out { seg.new.out ≡ seg.old.out }
    ensures refused { IfErr result (λ refusal. refusal ≡ OutOfMemory) }
{
    let _kept = seg.lines();
    let mut made: usize = 0;
    let mut at = 0;
    while at < seg.lines().len() {
        let Some(found) = find_in(seg, live, at, pass)? else {
            at += 1;
            continue;
        };
        rewrite(seg, found)?;
        made = made.saturating_add(1);
    }
    Ok(made)
}

// Sweeps until one makes nothing.
fn sweeps<F: Fn(&Seg, &LiveTable, usize) -> Result<Option<Rewrite>, Refusal>>(
    seg: &mut Seg,
    live: &LiveTable,
    pass: &Pass<F>,
) -> Result<usize, Refusal>
    requires callable { (n : _) (l : _) (at : ℕ) → F.pre pass.now.find n l at }
    requires exact { (n : _) (l : _) (at : ℕ) (r : _) → F.post pass.now.find n l at r → Answers (match_at pass.now.rule pass.now.literals.now.items (annotated n.now.lines n.now.out) l.now at) r }
    requires good { IsGood pass.now.rule pass.now.literals.now.items }
    requires flow { pass.now.rule ≤ last_flow_rule }
    ensures { IsRun pass.now.rule pass.now.literals.now.items (annotated seg.old.lines seg.old.out) (annotated seg.new.lines seg.new.out) result }
{
    let mut made: usize = 0;
    loop {
        let more = sweep(seg, live, pass)?;
        if more == 0 {
            return Ok(made);
        }
        made = made.saturating_add(more);
    }
}

/// The same as `run_pass`, for a rule on jumps, branches and labels that asks no notes. What is known at the lines is noted anew when
/// all of them stand. After a refusal the lines are as before.
pub(crate) fn run_lines<F: Fn(&Seg, &LiveTable, usize) -> Result<Option<Rewrite>, Refusal>>(
    alloc: Global,
    code: &mut Noted,
    pass: &Pass<F>,
) -> Result<usize, Refusal>
    requires callable { (n : _) (l : _) (at : ℕ) → F.pre pass.now.find n l at }
    requires exact { (n : _) (l : _) (at : ℕ) (r : _) → F.post pass.now.find n l at r → Answers (match_at pass.now.rule pass.now.literals.now.items (annotated n.now.lines n.now.out) l.now at) r }
    requires good { IsGood pass.now.rule pass.now.literals.now.items }
    requires flow { pass.now.rule ≤ last_flow_rule }
    ensures run { IsRun pass.now.rule pass.now.literals.now.items code.old code.new result }
    ensures kept { IfErr result (λ _. code.new ≡ code.old) }
{
    let mut copy = copied(alloc, code.seg())?;
    let made = sweeps(&mut copy, &LiveTable::empty(alloc), pass)?;
    if made == 0 {
        return Ok(0);
    }
    let noted = annotate(alloc, copy)?;
    *code = noted;
    Ok(made)
}
