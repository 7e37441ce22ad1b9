// Where lines jump and branch, lines over which nothing leads back, and whether what comes behind them stays as it was.
ghost use Rattle.std.specs.Prelude.{◌≡◌, ◌+◌, ◌^◌, ◌≤◌, ◌<◌, ℕ, false, true, Some, length, get_or, map, slice_get, IfOk};
ghost use Rattle.c65_code.specs.Parts.{no_parts};
ghost use Rattle.c65_code.specs.Segments.{IsSegment, target_of};
ghost use Rattle.c65_live.specs.Flows.{found};
ghost use Rattle.c65_live.specs.Regions.{places_of, IsBarred, IsSame, AreSame};

use crate::flow::{Labels, marked, place};
use c65_code::{Line, RegSet};
use std::alloc::{AllocError, Global};

fn places_in(
    alloc: Global,
    labels: &Labels,
    lines: &[Line],
) -> Result<Vec<Option<usize>>, AllocError>
    ensures { IfOk result (λ places. places.items ≡ map (λ line. found labels.now.entries (target_of line)) lines.now) }
{
    let mut places = Vec::new(alloc);
    for line in lines {
        places.push(place(labels, line))?;
    }
    Ok(places)
}

/// The line to which each line jumps or branches.
pub(crate) fn places(alloc: Global, lines: &[Line]) -> Result<Vec<Option<usize>>, AllocError>
    requires { IsSegment lines.now }
    ensures { IfOk result (λ places. places.items ≡ places_of lines.now) }
{
    let labels = marked(alloc, lines)?;
    let places = places_in(alloc, &labels, lines)?;
    Ok(places)
}

// The line behind this one, if it leads back over the end, or else the end.
fn raised(place: Option<usize>, at: usize, end: usize) -> usize
    requires line { at + 1 < 2 ^ 64 }
    requires end { end ≤ at }
    ensures past { end ≤ result }
    ensures within { result ≤ at + 1 }
    ensures same { result ≤ at → result ≡ end }
    ensures place { (r : ℕ) → place ≡ Some r → result ≤ at → result ≤ r }
{
    match place {
        Some(to) => { if to < end { at + 1 } else { end } }
        None => end,
    }
}

/// The least line from this one on over which nothing leads back.
pub(crate) fn barred_from(places: &[Option<usize>], from: usize) -> usize
    requires { from ≤ length places.now }
    ensures past { from ≤ result }
    ensures within { result ≤ length places.now }
    ensures barred { IsBarred places.now result }
{
    let mut end = from;
    for at in from..places.len() {
        end = raised(places[at], at, end);
    }
    end
}

fn lower(place: Option<usize>, first: usize) -> usize
    ensures low { result ≤ first }
    ensures place { (r : ℕ) → place ≡ Some r → result ≤ r }
{
    match place {
        Some(to) => { if to < first { to } else { first } }
        None => first,
    }
}

/// The last line up to this one over which nothing leads back.
pub(crate) fn barred_to(places: &[Option<usize>], from: usize) -> usize
    ensures low { result ≤ from }
    ensures barred { IsBarred places.now result }
{
    let mut first = from;
    let mut at = places.len();
    while at > first {
        at -= 1;
        first = lower(places[at], first);
    }
    first
}

/// Lines that go, and how many come in their place.
#[derive(Clone, Copy)]
pub(crate) struct Change {
    pub(crate) at: usize,
    pub(crate) count: usize,
    pub(crate) new: usize,
}

fn are_equal(live: &[RegSet], old: &[RegSet], at: usize) -> bool
    ensures { result ≡ true → get_or live.now at no_parts ≡ get_or old.now at no_parts }
{
    if at >= live.len() || at >= old.len() {
        return false;
    }
    let (set, was) = (live[at], old[at]);
    set == was
}

// Whether the line stays, and its set is what it was.
fn is_same(old: &[RegSet], live: &[RegSet], change: Change, at: usize) -> bool
    requires old { change.at + change.count ≤ length old.now }
    requires live { change.at + change.new ≤ length live.now }
    ensures { result ≡ true → IsSame change.at change.count change.new old.now live.now at }
{
    if at < change.at {
        return are_equal(live, old, at);
    }
    let end = change.at + change.new;
    if at < end {
        return false;
    }
    are_equal(&live[end..], &old[change.at + change.count..], at - end)
}

// The same of the line to which one leads, if it does not stand before these.
fn leads_same(
    place: Option<usize>,
    old: &[RegSet],
    live: &[RegSet],
    change: Change,
    first: usize,
) -> bool
    requires old { change.at + change.count ≤ length old.now }
    requires live { change.at + change.new ≤ length live.now }
    ensures { result ≡ true → (r : ℕ) → place ≡ Some r → first ≤ r → IsSame change.at change.count change.new old.now live.now r }
{
    match place {
        Some(to) => to < first || is_same(old, live, change, to),
        None => true,
    }
}

fn lead_same(
    places: &[Option<usize>],
    old: &[RegSet],
    live: &[RegSet],
    change: Change,
    first: usize,
) -> bool
    requires old { change.at + change.count ≤ length old.now }
    requires live { change.at + change.new ≤ length live.now }
    requires first { first ≤ length places.now }
    ensures { result ≡ true → (q r : ℕ) → q < first → slice_get places.now q ≡ Some (Some r) → first ≤ r → IsSame change.at change.count change.new old.now live.now r }
{
    for at in 0..first {
        if !leads_same(places[at], old, live, change, first) {
            return false;
        }
    }
    true
}

/// Whether all that comes behind the lines before this one stays with its set.
pub(crate) fn are_same(
    places: &[Option<usize>],
    old: &[RegSet],
    live: &[RegSet],
    change: Change,
    first: usize,
) -> bool
    requires old { change.at + change.count ≤ length old.now }
    requires live { change.at + change.new ≤ length live.now }
    requires first { first ≤ length places.now }
    ensures same { result ≡ true → AreSame change.at change.count change.new old.now live.now places.now first }
    ensures some { result ≡ false → 0 < first }
{
    if first == 0 {
        return true;
    }
    is_same(old, live, change, first) && lead_same(places, old, live, change, first)
}
