// Laws, each the contract of a function that does nothing.
ghost use Rattle.c65_rtl_law_stack.specs.Rows.{StacksAreChecked};

/// Wherever the lines of `stkchk` stand under its number, a call with enough of both stacks left comes back with A, X, Y and sreg as
/// they were, and every other one ends the run with status 240, as the row says.
pub fn stacks_are_checked()
    ensures { StacksAreChecked }
{}
