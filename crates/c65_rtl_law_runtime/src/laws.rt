// Laws, each the contract of a function that does nothing.
ghost use Rattle.c65_rtl_law_runtime.specs.Runtime.{RoutinesAreMet, RuntimeIsMet};

/// Wherever the lines of a routine stand under its number, and those of the routines that it calls under theirs, it does what its
/// row says at every call that the row admits, within the bytes of both stacks that every routine has and in fewer instructions
/// than the row costs.
pub fn routines_are_met()
    ensures { RoutinesAreMet }
{}

/// So do all routines wherever the lines of all stand under their numbers.
pub fn the_runtime_is_met()
    ensures { RuntimeIsMet }
{}
