// Laws of runs, each the contract of a function that does nothing.
ghost use Rattle.c65_sim.specs.Laws.{TwoRunsAreOne};

/// A call that goes on after another gives what one call would have given.
pub fn two_runs_are_one()
    ensures { TwoRunsAreOne }
{}
