// Laws of calls, each the contract of a function that does nothing.
ghost use Rattle.c65_agree_call.specs.Laws.{CallsAreMeant, CallsByNameAreFollowed, CallsByNameEnter, CallsThroughPointersAreFollowed, CallsThroughPointersEnter, FunctionsAreFollowed, PointersArePut};

/// A call by name comes to the first line of the function.
pub fn calls_by_name_enter()
    ensures { CallsByNameEnter }
{}

/// So does one through a pointer.
pub fn calls_through_pointers_enter()
    ensures { CallsThroughPointersEnter }
{}

/// A pointer to a function is where such a call asks for it.
pub fn pointers_are_put()
    ensures { PointersArePut }
{}

/// The step of a call enters the function.
pub fn calls_are_meant()
    ensures { CallsAreMeant }
{}

/// From its first line on a function does its work and comes back.
pub fn functions_are_followed()
    ensures { FunctionsAreFollowed }
{}

/// A call by name does what it means, up to the line behind it.
pub fn calls_by_name_are_followed()
    ensures { CallsByNameAreFollowed }
{}

/// So does one through a pointer.
pub fn calls_through_pointers_are_followed()
    ensures { CallsThroughPointersAreFollowed }
{}
