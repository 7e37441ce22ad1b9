// The table of what is live after each line of a segment.
ghost use Rattle.std.specs.Prelude.{◌≡◌, ◌+◌, ◌<◌, ◌≤◌, [], ◌++◌, length, take, drop, slice_get, IfOk, IfErr, IfSome, OnOk, OnErr};
ghost use Rattle.c65_base.specs.declared.refusal.Refusal.TheVariants.{OutOfMemory};
ghost use Rattle.c65_code.specs.Segments.{IsSegment, replaced};
ghost use Rattle.c65_live.specs.Tables.{Table, IsLiveTable, is_dead};
ghost use Rattle.c65_live.specs.Renewals.{IsNear};
ghost use Rattle.c65_live.specs.Sweeps.{IsSettled};

use crate::flow::{Flow, flows};
use crate::region::renewed;
use crate::renew::{afters, before_rest, edge};
use crate::sweep::sweep;
use c65_base::Refusal;
use c65_code::{Line, RegSet, Seg};
use std::alloc::{AllocError, Global};
use std::collections::VecDeque;
use std::marker::Model;

/// What is live after each line of a segment. The sets are cut in two behind the last change, so that the next one, near it, moves
/// few of them.
#[derive(Drop)]
pub struct LiveTable {
    alloc: Global,
    front: Vec<RegSet>,
    back: VecDeque<RegSet>,
}

impl Model for LiveTable {
    ghost use Rattle.std.specs.Prelude.{◌++◌};
    ghost use Rattle.c65_live.specs.Tables.{Table};

    ghost Value = { Table };

    ghost view = { λ t. record { after = t.front.items ++ t.back.items } };
}

impl LiveTable {
    /// The table of no lines.
    pub fn empty(alloc: Global) -> LiveTable
        ensures { result ≡ record { after = [] } }
    {
        LiveTable {
            alloc,
            front: Vec::new(alloc),
            back: VecDeque::new(alloc),
        }
    }

    /// The table of a segment's lines.
    pub fn new(alloc: Global, seg: &Seg) -> Result<LiveTable, Refusal>
        ensures ok { IfOk result (λ table. IsLiveTable seg.now.lines seg.now.out table) }
        ensures refused { IfErr result (λ refusal. refusal ≡ OutOfMemory) }
    {
        let front = made(alloc, seg.out(), seg.lines())?;
        Ok(LiveTable {
            alloc,
            front,
            back: VecDeque::new(alloc),
        })
    }

    /// What is live after a line; None exactly past the end.
    #[tactic(auto, using(crate::proofs::Cuts::get_front, crate::proofs::Cuts::get_back))]
    pub fn after(&self, at: usize) -> Option<RegSet>
        ensures { result ≡ slice_get self.now.after at }
    {
        if at < self.front.len() {
            return Some(self.front[at]);
        }
        self.back.get(at - self.front.len()).copied()
    }

    /// Whether none of the parts is live after a line.
    #[tactic(auto, using(crate::proofs::Sets::set_or_none))]
    pub fn is_dead(&self, at: usize, parts: RegSet) -> bool
        ensures { result ≡ is_dead self.now at parts }
    {
        let live = self.after(at).unwrap_or(RegSet::empty());
        parts.minus(live) == parts
    }

    /// The table of the segment's lines with others in place of some, where this is the table of its lines. It is made anew only near
    /// them. After a refusal the table is as before.
    pub fn replace(
        &mut self,
        seg: &Seg,
        at: usize,
        count: usize,
        lines: &[Line],
    ) -> Result<(), Refusal>
        requires place { at + count ≤ length seg.now.lines }
        requires kept { IsSegment (replaced seg.now.lines at count lines.now) }
        requires table { IsLiveTable seg.now.lines seg.now.out self.old }
        ensures ok { OnOk result (IsLiveTable (replaced seg.now.lines at count lines.now) seg.now.out self.new) }
        ensures err { OnErr result (self.new ≡ self.old) }
        ensures refused { IfErr result (λ refusal. refusal ≡ OutOfMemory) }
    {
        let _kept = seg.lines();
        let near = self.near(seg, at, count, lines)?;
        match near {
            Some(near) => self.put(near.first, at + count, &near.sets)?,
            None => self.renew(seg, at, count, lines)?,
        }
        Ok(())
    }

    // The sets that change where new lines stand in place of some. None where that is not seen.
    fn near(
        &self,
        seg: &Seg,
        at: usize,
        count: usize,
        new: &[Line],
    ) -> Result<Option<Renewal>, AllocError>
        requires place { at + count ≤ length seg.now.lines }
        requires table { IsLiveTable seg.now.lines seg.now.out self.now }
        ensures { IfOk result (λ found. IfSome found (λ near. IsNear seg.now.lines seg.now.out self.now.after at count new.now near.first near.sets.items)) }
    {
        let (out, lines, rest) = (seg.out(), seg.lines(), at + count);
        let next = self.after(rest).unwrap_or(RegSet::empty());
        let after = before_rest(out, &lines[rest..], next);
        let Some(first) = edge(out, lines, at, count, new, after) else {
            return Ok(None);
        };
        let widened = joined(self.alloc, &lines[first..at], new, &[])?;
        let sets = afters(self.alloc, out, &widened, after)?;
        Ok(Some(Renewal { first, sets }))
    }

    // Sets in place of those from one on up to another.
    fn put(&mut self, first: usize, end: usize, sets: &[RegSet]) -> Result<(), AllocError>
        requires order { first ≤ end }
        requires place { end ≤ length self.old.after }
        ensures ok { OnOk result (self.new.after ≡ take first self.old.after ++ (sets.now ++ drop end self.old.after)) }
        ensures err { OnErr result (self.new ≡ self.old) }
    {
        cut(&mut self.front, &mut self.back, end)?;
        self.front.extend_from_slice(sets)?;
        self.front.drain(first..end);
        Ok(())
    }

    // The sets after the segment's lines with others in place of some, by sweeps over a region of them.
    fn renew(
        &mut self,
        seg: &Seg,
        at: usize,
        count: usize,
        lines: &[Line],
    ) -> Result<(), AllocError>
        requires place { at + count ≤ length seg.now.lines }
        requires kept { IsSegment (replaced seg.now.lines at count lines.now) }
        requires table { IsLiveTable seg.now.lines seg.now.out self.old }
        ensures ok { OnOk result (IsLiveTable (replaced seg.now.lines at count lines.now) seg.now.out self.new) }
        ensures err { OnErr result (self.new ≡ self.old) }
    {
        cut(&mut self.front, &mut self.back, seg.lines().len())?;
        let all = swept(self.alloc, seg, &self.front, at, count, lines)?;
        self.front = all;
        self.back.clear();
        Ok(())
    }
}

// The sets after the lines from one on up to the end of new ones.
#[derive(Drop)]
struct Renewal {
    first: usize,
    sets: Vec<RegSet>,
}

// The last set in front comes first behind.
fn step_back(front: &mut Vec<RegSet>, back: &mut VecDeque<RegSet>) -> Result<(), AllocError>
    requires { 0 < length front.old.items }
    ensures same { front.new.items ++ back.new.items ≡ front.old.items ++ back.old.items }
    ensures fewer { OnOk result (length front.new.items + 1 ≡ length front.old.items) }
{
    let last = front[front.len() - 1];
    back.push_front(last)?;
    front.pop();
    Ok(())
}

// The first set behind comes last in front.
fn step_on(front: &mut Vec<RegSet>, back: &mut VecDeque<RegSet>) -> Result<(), AllocError>
    requires { 0 < length back.old.items }
    ensures same { front.new.items ++ back.new.items ≡ front.old.items ++ back.old.items }
    ensures more { OnOk result (length front.new.items ≡ length front.old.items + 1) }
{
    let first = back[0];
    front.push(first)?;
    back.pop_front();
    Ok(())
}

// Cuts the sets at a place. After a refusal they are cut elsewhere.
fn cut(front: &mut Vec<RegSet>, back: &mut VecDeque<RegSet>, at: usize) -> Result<(), AllocError>
    requires { at ≤ length (front.old.items ++ back.old.items) }
    ensures same { front.new.items ++ back.new.items ≡ front.old.items ++ back.old.items }
    ensures place { OnOk result (length front.new.items ≡ at) }
{
    'backward: while front.len() > at {
        step_back(front, back)?;
    }
    'onward: while front.len() < at {
        step_on(front, back)?;
    }
    Ok(())
}

/// Sets in place of no fewer others.
pub(crate) fn overwrite(live: &mut Vec<RegSet>, at: usize, count: usize, new: &[RegSet])
    requires place { at + count ≤ length live.old.items }
    requires fewer { length new.now ≤ count }
    ensures { live.new.items ≡ take at live.old.items ++ (new.now ++ drop (at + count) live.old.items) }
{
    let end = at + new.len();
    live[at..end].copy_from_slice(new);
    live.drain(end..at + count);
}

// The sets after the segment's lines with others in place of some, by sweeps over a region of them.
fn swept(
    alloc: Global,
    seg: &Seg,
    live: &[RegSet],
    at: usize,
    count: usize,
    new: &[Line],
) -> Result<Vec<RegSet>, AllocError>
    requires place { at + count ≤ length seg.now.lines }
    requires kept { IsSegment (replaced seg.now.lines at count new.now) }
    requires table { IsLiveTable seg.now.lines seg.now.out (record { after = live.now }) }
    ensures { IfOk result (λ sets. IsLiveTable (replaced seg.now.lines at count new.now) seg.now.out (record { after = sets.items })) }
{
    let (lines, rest) = (seg.lines(), at + count);
    let all = joined(alloc, &lines[..at], new, &lines[rest..])?;
    renewed(alloc, seg, &all, live, at, count, new)
}

fn joined(
    alloc: Global,
    first: &[Line],
    second: &[Line],
    third: &[Line],
) -> Result<Vec<Line>, AllocError>
    ensures { IfOk result (λ all. all.items ≡ first.now ++ (second.now ++ third.now)) }
{
    let mut all = Vec::with_capacity(alloc, first.len() + second.len() + third.len())?;
    all.extend_from_slice(first)?;
    all.extend_from_slice(second)?;
    all.extend_from_slice(third)?;
    Ok(all)
}

// The sets after the lines of a segment.
#[tactic(auto, using(crate::proofs::Tables::settled_table))]
fn made(alloc: Global, out: RegSet, lines: &[Line]) -> Result<Vec<RegSet>, AllocError>
    requires { IsSegment lines.now }
    ensures { IfOk result (λ live. IsLiveTable lines.now out (record { after = live.items })) }
{
    let flows = flows(alloc, out, lines)?;
    settled(alloc, &flows)
}

// The sets in which no sweep changes anything any more, from nothing on.
fn settled(alloc: Global, flows: &[Flow]) -> Result<Vec<RegSet>, AllocError>
    ensures { IfOk result (λ live. IsSettled flows.now live.items) }
{
    let mut live = vec![in alloc; RegSet::empty(); flows.len()]?;
    while sweep(flows, &mut live) {}
    Ok(live)
}
