// Sweeps over a table, from the last line to the first.
ghost use Rattle.std.specs.Prelude.{◌≡◌, ◌+◌, ◌<◌, false, true, List, length, get_or, set};
ghost use Rattle.c65_code.specs.Parts.{no_parts};
ghost use Rattle.c65_live.specs.Flows.{flows_of, joined_at, before_at, IsClosed};
ghost use Rattle.c65_live.specs.Sweeps.{AreSound, room};

use crate::flow::Flow;
use c65_code::{Line, RegSet};

// What is live after a line, by what is live before the next one.
fn joined(flows: &[Flow], live: &[RegSet], at: usize, next: RegSet) -> RegSet
    requires line { at < length flows.now }
    requires long { length live.now ≡ length flows.now }
    requires next { next ≡ before_at flows.now live.now (at + 1) }
    ensures { result ≡ joined_at flows.now live.now at }
{
    let flow = flows[at];
    let straight = if flow.onward { next } else { RegSet::empty() };
    let jumped = match flow.to {
        Some(to) => before(flows, live, to),
        None => RegSet::empty(),
    };
    live[at].union(flow.left.union(straight.union(jumped)))
}

// What is live before a line; nothing past the end.
fn before(flows: &[Flow], live: &[RegSet], at: usize) -> RegSet
    requires { length live.now ≡ length flows.now }
    ensures { result ≡ before_at flows.now live.now at }
{
    match flows.get(at) {
        Some(flow) => flow.before(live[at]),
        None => RegSet::empty(),
    }
}

// Joins to the set of a line what is live behind it. Whether the set rose.
fn raise(flows: &[Flow], live: &mut [RegSet], at: usize, next: RegSet) -> bool
    requires line { at < length flows.now }
    requires long { length live.old ≡ length flows.now }
    requires next { next ≡ before_at flows.now live.old (at + 1) }
    ensures set { live.new ≡ set live.old at (joined_at flows.now live.old at) }
    ensures same { result ≡ false → joined_at flows.now live.old at ≡ get_or live.old at no_parts }
    ensures rises { result ≡ true → room live.new < room live.old }
{
    let old = live[at];
    let joined = joined(flows, live, at, next);
    live[at] = joined;
    joined != old
}

/// One sweep, from the last line to the first. Whether some set rose.
pub(crate) fn sweep(flows: &[Flow], live: &mut [RegSet]) -> bool
    requires { length live.old ≡ length flows.now }
    ensures long { length live.new ≡ length live.old }
    // what is live stays so
    ensures sound { (lines : List Line) (out : RegSet) → flows.now ≡ flows_of lines out → AreSound lines out live.old → AreSound lines out live.new }
    ensures closed { result ≡ false → IsClosed flows.now live.new }
    ensures rises { result ≡ true → room live.new < room live.old }
{
    let mut risen = false;
    let mut next = RegSet::empty();
    for at in (0..flows.len()).rev() {
        if raise(flows, live, at, next) {
            risen = true;
        }
        next = before(flows, live, at);
    }
    risen
}
