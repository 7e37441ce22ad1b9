// Laws of what `depth` reports, each the contract of a function that does nothing.
ghost use Rattle.c65_driver_law_depth.specs.Reported.{FittingIsReported, NoReportedStateIsDeep};

/// `depth` answers 0 exactly where there is a certificate whose numbers cover the program of its files, and `main` with
/// the command's arguments has room on both stacks.
pub fn fitting_is_reported()
    ensures { FittingIsReported }
{}

/// Where `depth` answers 0 no state of the program of its files is too deep, with the command's arguments and on any input.
pub fn no_reported_state_is_deep()
    ensures { NoReportedStateIsDeep }
{}
