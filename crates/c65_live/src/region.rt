// The sets after lines in which others stand in place of some: sweeps go over a region of them alone.
ghost use Rattle.std.specs.Prelude.{◌≡◌, ◌+◌, ◌-◌, ◌<◌, ◌≤◌, ◌++◌, ℕ, not, false, true, if◌then◌else◌, List, length, get_or, set, take, drop, replicate, Option, IfOk};
ghost use Rattle.c65_code.specs.Parts.{no_parts, union_of};
ghost use Rattle.c65_code.specs.Segments.{IsSegment, is_closing, replaced};
ghost use Rattle.c65_live.specs.Live.{left_parts};
ghost use Rattle.c65_live.specs.Flows.{flows_of, before_at, before_to, joined_at};
ghost use Rattle.c65_live.specs.Regions.{places_of, IsBarred, AreSame, IsSwept};
ghost use Rattle.c65_live.specs.Sweeps.{AreSound, room};
ghost use Rattle.c65_live.specs.Tables.{IsLiveTable};

use crate::border::{Change, are_same, barred_from, barred_to, places};
use crate::flow::{closes, left};
use crate::renew::before;
use crate::table::overwrite;
use c65_code::{Line, RegSet, Seg};
use std::alloc::{AllocError, Global};

// What is live before a line; nothing past the end.
#[tactic(auto, using(crate::proofs::Swept::before_line_at, crate::proofs::Swept::before_none_at))]
fn before_at(out: RegSet, lines: &[Line], live: &[RegSet], at: usize) -> RegSet
    requires { length live.now ≡ length lines.now }
    ensures { result ≡ before_at (flows_of lines.now out) live.now at }
{
    match lines.get(at) {
        Some(line) => before(out, line, live[at]),
        None => RegSet::empty(),
    }
}

// What is live before the line to which one leads.
fn before_to(out: RegSet, lines: &[Line], live: &[RegSet], place: Option<usize>) -> RegSet
    requires { length live.now ≡ length lines.now }
    ensures { result ≡ before_to (flows_of lines.now out) live.now place }
{
    match place {
        Some(to) => before_at(out, lines, live, to),
        None => RegSet::empty(),
    }
}

fn straight(line: &Line, next: RegSet) -> RegSet
    ensures { result ≡ (if not (is_closing line.now) then next else no_parts) }
{
    if closes(line) { RegSet::empty() } else { next }
}

fn joined_of(set: RegSet, left: RegSet, straight: RegSet, jumped: RegSet) -> RegSet
    ensures { result ≡ union_of set (union_of left (union_of straight jumped)) }
{
    set.union(left.union(straight.union(jumped)))
}

// What is live after a line, by what is live before the next one.
fn joined(
    out: RegSet,
    lines: &[Line],
    places: &[Option<usize>],
    live: &[RegSet],
    at: usize,
    next: RegSet,
) -> RegSet
    requires line { at < length lines.now }
    requires long { length live.now ≡ length lines.now }
    requires places { places.now ≡ places_of lines.now }
    requires next { next ≡ before_at (flows_of lines.now out) live.now (at + 1) }
    ensures { result ≡ joined_at (flows_of lines.now out) live.now at }
{
    let line = &lines[at];
    let jumped = before_to(out, lines, live, places[at]);
    joined_of(live[at], left(out, line), straight(line, next), jumped)
}

// Joins to the set of a line what is live behind it. Whether the set rose.
fn raise(
    out: RegSet,
    lines: &[Line],
    places: &[Option<usize>],
    live: &mut [RegSet],
    at: usize,
    next: RegSet,
) -> bool
    requires line { at < length lines.now }
    requires long { length live.old ≡ length lines.now }
    requires places { places.now ≡ places_of lines.now }
    requires next { next ≡ before_at (flows_of lines.now out) live.old (at + 1) }
    ensures set { live.new ≡ set live.old at (joined_at (flows_of lines.now out) live.old at) }
    ensures same { result ≡ false → joined_at (flows_of lines.now out) live.old at ≡ get_or live.old at no_parts }
    ensures rises { result ≡ true → room live.new < room live.old }
{
    let old = live[at];
    let joined = joined(out, lines, places, live, at, next);
    live[at] = joined;
    joined != old
}

// One sweep over the lines from one on up to another, from the last to the first. Whether some set rose.
fn sweep(
    out: RegSet,
    lines: &[Line],
    places: &[Option<usize>],
    live: &mut [RegSet],
    first: usize,
    end: usize,
) -> bool
    requires region { first ≤ end }
    requires within { end ≤ length lines.now }
    requires long { length live.old ≡ length lines.now }
    requires places { places.now ≡ places_of lines.now }
    ensures long { length live.new ≡ length live.old }
    ensures sound { AreSound lines.now out live.old → AreSound lines.now out live.new }
    ensures behind { (q : ℕ) → end ≤ q → get_or live.new q no_parts ≡ get_or live.old q no_parts }
    ensures closed { result ≡ false → (q : ℕ) → first ≤ q → q < end → joined_at (flows_of lines.now out) live.new q ≡ get_or live.new q no_parts }
    ensures rises { result ≡ true → room live.new < room live.old }
{
    let mut risen = false;
    let mut next = before_at(out, lines, live, end);
    for at in (first..end).rev() {
        if raise(out, lines, places, live, at, next) {
            risen = true;
        }
        next = before_at(out, lines, live, at);
    }
    risen
}

// Sweeps over these lines until one changes nothing.
fn settle(
    out: RegSet,
    lines: &[Line],
    places: &[Option<usize>],
    live: &mut [RegSet],
    first: usize,
    end: usize,
)
    requires region { first ≤ end }
    requires within { end ≤ length lines.now }
    requires long { length live.old ≡ length lines.now }
    requires places { places.now ≡ places_of lines.now }
    requires sound { AreSound lines.now out live.old }
    ensures swept { IsSwept lines.now out live.new first end }
    ensures behind { (q : ℕ) → end ≤ q → get_or live.new q no_parts ≡ get_or live.old q no_parts }
{
    while sweep(out, lines, places, live, first, end) {}
}

// Settles the lines before one, ever more of them, until all that comes behind the others stays as it was. The first of them.
#[tactic(auto, using(crate::proofs::Swept::places_long))]
fn settle_up(
    out: RegSet,
    lines: &[Line],
    places: &[Option<usize>],
    live: &mut [RegSet],
    old: &[RegSet],
    change: Change,
    end: usize,
) -> usize
    requires old { change.at + change.count ≤ length old.now }
    requires region { change.at + change.new ≤ end }
    requires within { end ≤ length lines.now }
    requires long { length live.old ≡ length lines.now }
    requires places { places.now ≡ places_of lines.now }
    requires sound { AreSound lines.now out live.old }
    ensures low { result ≤ change.at - 1 }
    ensures barred { IsBarred places.now result }
    ensures swept { IsSwept lines.now out live.new result end }
    ensures same { AreSame change.at change.count change.new old.now live.new places.now result }
    ensures behind { (q : ℕ) → end ≤ q → get_or live.new q no_parts ≡ get_or live.old q no_parts }
{
    let mut first = barred_to(places, change.at.saturating_sub(8));
    settle(out, lines, places, live, first, end);
    while !are_same(places, old, live, change, first) {
        first = barred_to(places, first.saturating_sub(end - first));
        settle(out, lines, places, live, first, end);
    }
    first
}

// No parts up to a line, and from there on the sets behind the old lines.
fn started(
    alloc: Global,
    old: &[RegSet],
    change: Change,
    end: usize,
) -> Result<Vec<RegSet>, AllocError>
    requires old { change.at + change.count ≤ length old.now }
    requires region { change.at + change.new ≤ end }
    requires within { end ≤ length old.now - change.count + change.new }
    ensures { IfOk result (λ live. live.items ≡ replicate end no_parts ++ drop (end - change.new + change.count) old.now) }
{
    let mut live = vec![in alloc; RegSet::empty(); end]?;
    live.extend_from_slice(&old[end - change.new + change.count..])?;
    Ok(live)
}

/// The sets after these lines, which are a segment's with others in place of some, by the sets after the segment's.
#[tactic(auto, using(crate::proofs::Swept::places_long))]
pub(crate) fn renewed(
    alloc: Global,
    seg: &Seg,
    lines: &[Line],
    old: &[RegSet],
    at: usize,
    count: usize,
    new: &[Line],
) -> Result<Vec<RegSet>, AllocError>
    requires place { at + count ≤ length seg.now.lines }
    requires lines { lines.now ≡ replaced seg.now.lines at count new.now }
    requires kept { IsSegment lines.now }
    requires table { IsLiveTable seg.now.lines seg.now.out (record { after = old.now }) }
    ensures { IfOk result (λ sets. IsLiveTable lines.now seg.now.out (record { after = sets.items })) }
{
    let _kept = seg.lines();
    let new = new.len();
    let change = Change { at, count, new };
    let places = places(alloc, lines)?;
    let end = barred_from(&places, at + new);
    let mut live = started(alloc, old, change, end)?;
    let first = settle_up(seg.out(), lines, &places, &mut live, old, change, end);
    overwrite(&mut live, 0, first, &old[..first]);
    Ok(live)
}
