// Laws of functions that take further arguments, each the contract of a function that does nothing.
ghost use Rattle.c65_agree_variadic_function.specs.Arguments.{AcceptedFurtherArgumentsAreTaken};
ghost use Rattle.c65_agree_variadic_function.specs.Calls.{AcceptedBodiesServeFurtherCalls, BodiesServeFurtherCalls, FurtherCallsHaveCallees};
ghost use Rattle.c65_agree_variadic_function.specs.Functions.{FurtherFramesAreWithin, FurtherFunctionsMayBeCalled};

/// A call that the meaning accepts passes arguments of the types of the parameters, and further ones.
pub fn accepted_further_arguments_are_taken()
    ensures { AcceptedFurtherArgumentsAreTaken }
{}

/// The frame takes little more than the objects of the function.
pub fn further_frames_are_within()
    ensures { FurtherFramesAreWithin }
{}

/// The function may be called.
pub fn further_functions_may_be_called()
    ensures { FurtherFunctionsMayBeCalled }
{}

/// A call that is accepted of such a function has what is asked of calls in expressions.
pub fn further_calls_have_callees()
    ensures { FurtherCallsHaveCallees }
{}

/// The bodies of all functions do their work as calls of them ask.
pub fn bodies_serve_further_calls()
    ensures { BodiesServeFurtherCalls }
{}

/// So they do as accepted calls ask.
pub fn accepted_bodies_serve_further_calls()
    ensures { AcceptedBodiesServeFurtherCalls }
{}
