// Laws of calls in expressions, each the contract of a function that does nothing.
ghost use Rattle.c65_agree_invoke.specs.Accepted.{AcceptedCallsAgree};
ghost use Rattle.c65_agree_invoke.specs.Expressions.{NamedCallsAreExpressions, PointerCallsAreExpressions};
ghost use Rattle.c65_agree_invoke.specs.Nodes.{NamedCallsDo, PointerCallsDo, ScalarsComeBack};
ghost use Rattle.c65_agree_invoke.specs.Reaching.{LinedFunctionsMayBeReached, ReachingCallsAreExpressions, ReachingCallsDo};

/// The lines of a call by name do its work.
pub fn named_calls_do()
    ensures { NamedCallsDo }
{}

/// The lines of a call through a pointer do its work.
pub fn pointer_calls_do()
    ensures { PointerCallsDo }
{}

/// A number or pointer that a call gives comes to the primary register.
pub fn scalars_come_back()
    ensures { ScalarsComeBack }
{}

/// A call that is accepted has the convention of its function.
pub fn accepted_calls_agree()
    ensures { AcceptedCallsAgree }
{}

/// A call by name is an expression.
pub fn named_calls_are_expressions()
    ensures { NamedCallsAreExpressions }
{}

/// So is one through a pointer.
pub fn pointer_calls_are_expressions()
    ensures { PointerCallsAreExpressions }
{}

/// The lines of a call through a pointer do its work, whatever function it names.
pub fn reaching_calls_do()
    ensures { ReachingCallsDo }
{}

/// So it is an expression.
pub fn reaching_calls_are_expressions()
    ensures { ReachingCallsAreExpressions }
{}

/// A function with lines of its own may be reached so.
pub fn lined_functions_may_be_reached()
    ensures { LinedFunctionsMayBeReached }
{}
