// Laws of calls with further arguments, each the contract of a function that does nothing.
ghost use Rattle.c65_agree_variadic_call.specs.Nodes.{FurtherFunctionsMayBeReached, FurtherNamedCallsAreExpressions, FurtherNamedCallsDo, FurtherPointerCallsAreExpressions, FurtherPointerCallsDo};
ghost use Rattle.c65_agree_variadic_call.specs.Passed.{FurtherArgumentsArePassed};

/// At the first line each argument lies where its parameter is taken from, and the further ones below them.
pub fn further_arguments_are_passed()
    ensures { FurtherArgumentsArePassed }
{}

/// The lines of a call by name do its work.
pub fn further_named_calls_do()
    ensures { FurtherNamedCallsDo }
{}

/// So it is an expression.
pub fn further_named_calls_are_expressions()
    ensures { FurtherNamedCallsAreExpressions }
{}

/// A function that takes further arguments may be reached through a pointer.
pub fn further_functions_may_be_reached()
    ensures { FurtherFunctionsMayBeReached }
{}

/// The lines of a call through a pointer do its work.
pub fn further_pointer_calls_do()
    ensures { FurtherPointerCallsDo }
{}

/// So this is an expression too.
pub fn further_pointer_calls_are_expressions()
    ensures { FurtherPointerCallsAreExpressions }
{}
