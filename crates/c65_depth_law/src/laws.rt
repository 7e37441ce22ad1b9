// Laws of stack certificates, each the contract of a function that does nothing.
ghost use Rattle.c65_depth_law.specs.Checked.{CheckedIsCovered};
ghost use Rattle.c65_depth_law.specs.Least.{RoundsAreLeast, SettledNumbersCover};

/// The numbers that certificates are made of are at most those of any numbers that cover the costs of functions.
pub fn rounds_are_least()
    ensures { RoundsAreLeast }
{}

/// Where a round changes none of them, these numbers cover the costs of functions, where none stands still at the
/// greatest number that is counted.
pub fn settled_numbers_cover()
    ensures { SettledNumbersCover }
{}

/// After `check` says yes each function with a body that can be called from `main` has numbers that cover its cost and
/// those of the functions that it calls, and `main` with the arguments has room on both stacks.
pub fn checked_is_covered()
    ensures { CheckedIsCovered }
{}
