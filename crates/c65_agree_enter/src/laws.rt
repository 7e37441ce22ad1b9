// Laws of entries, each the contract of a function that does nothing.
ghost use Rattle.c65_agree_enter.specs.Laws.{ArgumentsLieAtHomes, CallersMayEnter, CallsAreEntered, EntriesEnter, EntriesKeep, ParametersBegin};

/// The store stands where parameters have begun.
pub fn parameters_begin()
    ensures { ParametersBegin }
{}

/// Each function may call.
pub fn callers_may_enter()
    ensures { CallersMayEnter }
{}

/// Where the machine has taken the frame, the first statement may begin.
pub fn calls_are_entered()
    ensures { CallsAreEntered }
{}

/// Arguments that lie at the homes of parameters are passed so.
pub fn arguments_lie_at_homes()
    ensures { ArgumentsLieAtHomes }
{}

/// The lines of an entry take the frame.
pub fn entries_enter()
    ensures { EntriesEnter }
{}

/// What the caller has is kept for it.
pub fn entries_keep()
    ensures { EntriesKeep }
{}
