// Laws of frames, each the contract of a function that does nothing.
ghost use Rattle.c65_agree_slots.specs.Callees.{FunctionsMayBeCalled};
ghost use Rattle.c65_agree_slots.specs.Calls.{CallsHaveCallees, BodiesServeCalls};
ghost use Rattle.c65_agree_slots.specs.Frames.{FramesHaveMoves, FramesTakeParameters};
ghost use Rattle.c65_agree_slots.specs.Functions.{FramesAreWithinTheirObjects, FramesAreFunctions};
ghost use Rattle.c65_agree_slots.specs.Refused.{RefusedCallsAreExpressions};
ghost use Rattle.c65_agree_slots.specs.Results.{AcceptedBodiesServeCalls, BodiesGiveWiderResults, CallsTakeWhatIsGiven, ResultsHaveShapes};
ghost use Rattle.c65_agree_slots.specs.Slots.{FramesHaveSlots};
ghost use Rattle.c65_agree_slots.specs.Taken.{TakenArgumentsHaveSizes, AcceptedArgumentsAreTaken};

/// The entry of a function brings parameters to regbank, each to bytes of its own.
pub fn frames_have_moves()
    ensures { FramesHaveMoves }
{}

/// It takes them from where the arguments of a call come.
pub fn frames_take_parameters()
    ensures { FramesTakeParameters }
{}

/// So a frame takes the arguments of a call that have the sizes of its parameters.
pub fn frames_have_slots()
    ensures { FramesHaveSlots }
{}

/// So the function may be called with them.
pub fn functions_may_be_called()
    ensures { FunctionsMayBeCalled }
{}

/// Arguments of the types of a function's parameters have their sizes.
pub fn taken_arguments_have_sizes()
    ensures { TakenArgumentsHaveSizes }
{}

/// A call that is accepted passes arguments of these types.
pub fn accepted_arguments_are_taken()
    ensures { AcceptedArgumentsAreTaken }
{}

/// A frame takes no more of the software stack for automatic objects than the source counts.
pub fn frames_are_within_their_objects()
    ensures { FramesAreWithinTheirObjects }
{}

/// A function of a plain program may be called.
pub fn frames_are_functions()
    ensures { FramesAreFunctions }
{}

/// A call that is accepted of such a function has what is asked of calls in expressions.
pub fn calls_have_callees()
    ensures { CallsHaveCallees }
{}

/// The bodies of all functions do their work as calls of them ask.
pub fn bodies_serve_calls()
    ensures { BodiesServeCalls }
{}

/// A call takes its result from where the function gives it.
pub fn calls_take_what_is_given()
    ensures { CallsTakeWhatIsGiven }
{}

/// A call that the meaning does not accept is undefined behind its arguments.
pub fn refused_calls_are_expressions()
    ensures { RefusedCallsAreExpressions }
{}

/// What a function gives is such a value as its call takes.
pub fn results_have_shapes()
    ensures { ResultsHaveShapes }
{}

/// A body does its work where values of a wider shape are taken.
pub fn bodies_give_wider_results()
    ensures { BodiesGiveWiderResults }
{}

/// So the bodies of all functions do theirs as accepted calls of them ask.
pub fn accepted_bodies_serve_calls()
    ensures { AcceptedBodiesServeCalls }
{}
