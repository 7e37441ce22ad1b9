// A rule in a single walk over the lines of a function.
ghost use Rattle.std.specs.Prelude.{◌≡◌, ◌≤◌, ℕ, IfOk, IfErr, IsOk, OnOk, All};
ghost use Rattle.c65_base.specs.declared.refusal.Refusal.TheVariants.{OutOfMemory};
ghost use Rattle.c65_code.specs.Segments.{IsSegment};
ghost use Rattle.c65_code.specs.Weights.{lines_size};
ghost use Rattle.c65_code.specs.Writable.{IsLineWritable};
ghost use Rattle.c65_know.specs.Known.{annotated};
ghost use Rattle.c65_live.specs.Tables.{IsLiveTable};
ghost use Rattle.c65_pass.specs.Once.{Stays, IsGoodOnce, Once, IsOnce};
ghost use Rattle.c65_pass.specs.Passes.{Answers, Rewrites, counted};
ghost use Rattle.c65_pass.specs.Rewriting.{rewritten};
ghost use Rattle.c65_pass.specs.Rules.{match_at};

use crate::rewrite::{Pass, Rewrite};
use c65_base::Refusal;
use c65_code::{Draft, Literals, Seg};
use c65_know::{Noted, annotate};
use c65_live::LiveTable;
use std::alloc::Global;

impl<'a, F: Fn(&Seg, &LiveTable, usize) -> Result<Option<Rewrite>, Refusal>> Pass<'a, F> {
    /// The pass of a rule that walks once and asks no notes. Its function answers exactly what the rule makes there, or that memory is
    /// wanted.
    pub fn once(rule: u8, literals: &'a Literals, find: F) -> Pass<'a, F>
        requires callable { (n : _) (l : _) (at : ℕ) → F.pre find n l at }
        requires exact { (n : _) (l : _) (at : ℕ) (r : _) → F.post find n l at r → Answers (match_at rule literals.now.items (annotated n.now.lines n.now.out) l.now at) r }
        requires good { IsGoodOnce rule literals.now.items }
        ensures rule { result.rule ≡ rule }
        ensures literals { result.literals.now ≡ literals.now }
        ensures find { result.find ≡ find }
    {
        Pass {
            rule,
            literals,
            find,
        }
    }
}

/// What the rule makes at a place.
pub(crate) fn find_in<F: Fn(&Seg, &LiveTable, usize) -> Result<Option<Rewrite>, Refusal>>(
    seg: &Seg,
    live: &LiveTable,
    at: usize,
    pass: &Pass<F>,
) -> Result<Option<Rewrite>, Refusal>
    requires callable { (n : _) (l : _) (at : ℕ) → F.pre pass.now.find n l at }
    requires exact { (n : _) (l : _) (at : ℕ) (r : _) → F.post pass.now.find n l at r → Answers (match_at pass.now.rule pass.now.literals.now.items (annotated n.now.lines n.now.out) l.now at) r }
    ensures { Answers (match_at pass.now.rule pass.now.literals.now.items (annotated seg.now.lines seg.now.out) live.now at) result }
{
    (pass.find)(seg, live, at)
}

fn put(seg: &mut Seg, rewrite: &Rewrite) -> Result<(), Refusal>
    requires { (at : ℕ) × Stays seg.old.lines at rewrite.now }
    ensures ok { OnOk result (annotated seg.new.lines seg.new.out ≡ annotated (rewritten seg.old.lines rewrite.now) seg.old.out) }
    ensures refused { IfErr result (λ refusal. refusal ≡ OutOfMemory) }
{
    seg.replace(rewrite.at(), rewrite.count(), rewrite.lines())
}

// The table of the lines that a rewriting makes.
fn follow(seg: &Seg, live: &mut LiveTable, rewrite: &Rewrite) -> Result<(), Refusal>
    requires stays { (at : ℕ) × Stays seg.now.lines at rewrite.now }
    requires table { IsLiveTable seg.now.lines seg.now.out live.old }
    ensures ok { OnOk result (IsLiveTable (rewritten seg.now.lines rewrite.now) seg.now.out live.new) }
    ensures refused { IfErr result (λ refusal. refusal ≡ OutOfMemory) }
{
    live.replace(seg, rewrite.at(), rewrite.count(), rewrite.lines())
}

// One walk from the first line to the last.
fn walk<F: Fn(&Seg, &LiveTable, usize) -> Result<Option<Rewrite>, Refusal>>(
    alloc: Global,
    seg: &mut Seg,
    pass: &Pass<F>,
) -> Result<usize, Refusal>
    requires callable { (n : _) (l : _) (at : ℕ) → F.pre pass.now.find n l at }
    requires exact { (n : _) (l : _) (at : ℕ) (r : _) → F.post pass.now.find n l at r → Answers (match_at pass.now.rule pass.now.literals.now.items (annotated n.now.lines n.now.out) l.now at) r }
    requires good { IsGoodOnce pass.now.rule pass.now.literals.now.items }
    ensures walked { IfOk result (λ made. IsOnce pass.now.rule pass.now.literals.now.items seg.old.out seg.old.lines seg.new.lines made) }
    ensures out { IsOk result → seg.new.out ≡ seg.old.out }
    ensures refused { IfErr result (λ refusal. refusal ≡ OutOfMemory) }
{
    let _kept = seg.lines();
    let mut live = LiveTable::new(alloc, seg)?;
    let mut made: usize = 0;
    let mut at = 0;
    while at < seg.lines().len() {
        let Some(found) = find_in(seg, &live, at, pass)? else {
            at += 1;
            continue;
        };
        follow(seg, &mut live, &found)?;
        put(seg, &found)?;
        let _now = seg.lines();
        made = made.saturating_add(1);
        at = found.at() + found.lines().len();
    }
    Ok(made)
}

/// A segment of the same lines.
pub(crate) fn copied(alloc: Global, seg: &Seg) -> Result<Seg, Refusal>
    ensures ok { IfOk result (λ copy. copy ≡ seg.now) }
    ensures refused { IfErr result (λ refusal. refusal ≡ OutOfMemory) }
{
    let mut draft = Draft::new(alloc, seg.out());
    draft.extend(seg.lines())?;
    Ok(draft.close())
}

/// Rewrites by a rule in one walk from the first line to the last, and answers how often. Lines that it puts in are not looked
/// at again. What is known at the lines is noted anew when all of them stand. After a refusal the lines are as before.
pub fn run_once<F: Fn(&Seg, &LiveTable, usize) -> Result<Option<Rewrite>, Refusal>>(
    alloc: Global,
    code: &mut Noted,
    pass: &Pass<F>,
) -> Result<usize, Refusal>
    requires callable { (n : _) (l : _) (at : ℕ) → F.pre pass.now.find n l at }
    requires exact { (n : _) (l : _) (at : ℕ) (r : _) → F.post pass.now.find n l at r → Answers (match_at pass.now.rule pass.now.literals.now.items (annotated n.now.lines n.now.out) l.now at) r }
    requires good { IsGoodOnce pass.now.rule pass.now.literals.now.items }
    ensures once { IfOk result (λ made. (n : ℕ) × Once pass.now.rule pass.now.literals.now.items code.old.out code.new.lines 0 code.old.lines n × (made ≡ counted n)) }
    ensures chain { (n : ℕ) × Rewrites pass.now.rule pass.now.literals.now.items code.old.out code.old.lines n code.new.lines × IfOk result (λ made. made ≡ counted n) }
    ensures segments { IsSegment code.old.lines × IsSegment code.new.lines }
    ensures extent { lines_size code.new.lines ≤ lines_size code.old.lines }
    ensures writable { (n : ℕ) → All (IsLineWritable n) code.old.lines → All (IsLineWritable n) code.new.lines }
    ensures out { code.new.out ≡ code.old.out }
    ensures kept { IfErr result (λ _. code.new ≡ code.old) }
    ensures refused { IfErr result (λ refusal. refusal ≡ OutOfMemory) }
{
    let mut copy = copied(alloc, code.seg())?;
    let made = walk(alloc, &mut copy, pass)?;
    let noted = annotate(alloc, copy)?;
    *code = noted;
    Ok(made)
}
