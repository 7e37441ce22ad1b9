// Laws of the functions that calls lead to, each the contract of a function that does nothing.
ghost use Rattle.c65_depth_law_ways.specs.Ways.{CyclesLeadBack, NoneWhereUnbounded, ReachedIsReachable, UnboundedIsFirst};

/// A function counts as one that can be called from `main` exactly where it is `main` or calls lead to it from there.
pub fn reached_is_reachable()
    ensures { ReachedIsReachable }
{}

/// A function counts as one on a call cycle exactly where calls lead from it back to it.
pub fn cycles_lead_back()
    ensures { CyclesLeadBack }
{}

/// The function that stands for those without a bound is the first that can be called from `main` and lies on a call
/// cycle or calls through a pointer.
pub fn unbounded_is_first()
    ensures { UnboundedIsFirst }
{}

/// There is no certificate exactly where a function that can be called from `main` lies on a call cycle or calls
/// through a pointer.
pub fn none_where_unbounded()
    ensures { NoneWhereUnbounded }
{}
