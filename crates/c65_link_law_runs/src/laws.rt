// Laws, each the contract of a function that does nothing.
ghost use Rattle.c65_link_law_runs.specs.Laws.{MovesAreFollowed, RunsAreFollowed};

/// Each line of a unit that stays within its bounds, a call of a hook too, is followed by at most as many rows as it weighs: the
/// guard refuses none of them, and the states agree again, or the run has ended with the same status and output. The state that
/// the lines are in then is one of their moves.
pub fn moves_are_followed()
    ensures { MovesAreFollowed }
{}

/// Where the lines come to something within a weight, as many rows at most lead to a moment that agrees with it, or to the end of
/// the run with its status and output, over whatever each move keeps.
pub fn runs_are_followed()
    ensures { RunsAreFollowed }
{}
