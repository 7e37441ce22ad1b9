// The law of the states of a program with a certificate, the contract of a function that does nothing.
ghost use Rattle.c65_depth_law_states.specs.States.{FittingIsNeverDeep};

/// Where each function that can be called from `main` has numbers that cover its cost and those of the functions that it
/// calls, and `main` with the arguments has room on both stacks, no call of any run is too deep.
pub fn fitting_is_never_deep()
    ensures { FittingIsNeverDeep }
{}
