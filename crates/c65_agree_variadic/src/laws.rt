// Laws of functions that take further arguments, each the contract of a function that does nothing.
ghost use Rattle.c65_agree_variadic.specs.Calls.{FurtherFunctionsAreFollowed};
ghost use Rattle.c65_agree_variadic.specs.Entries.{FurtherCallsAreEntered, FurtherEntriesEnter, FurtherEntriesKeep};
ghost use Rattle.c65_agree_variadic.specs.Frames.{EntriesCountMoves};
ghost use Rattle.c65_agree_variadic.specs.Given.{FurtherFramesAreGiven, ParametersLieAbove};
ghost use Rattle.c65_agree_variadic.specs.Laws.{FurtherCallsByNameAreFollowed, FurtherCallsThroughPointersAreFollowed};

/// The lines of the entry take the frame, count the bytes that the call passed, and bring parameters to regbank.
pub fn entries_count_moves()
    ensures { EntriesCountMoves }
{}

/// The frame of such a function is as its entry asks.
pub fn further_frames_are_given()
    ensures { FurtherFramesAreGiven }
{}

/// Its parameters lie above the further arguments.
pub fn parameters_lie_above()
    ensures { ParametersLieAbove }
{}

/// Where the machine has taken the frame, the parameters and the block of the further arguments have begun.
pub fn further_calls_are_entered()
    ensures { FurtherCallsAreEntered }
{}

/// The first statement may begin behind such an entry.
pub fn further_entries_enter()
    ensures { FurtherEntriesEnter }
{}

/// What the caller has is there again when the function is left.
pub fn further_entries_keep()
    ensures { FurtherEntriesKeep }
{}

/// From its first line on such a function does its work and comes back.
pub fn further_functions_are_followed()
    ensures { FurtherFunctionsAreFollowed }
{}

/// A call of it by name does what it means, up to the line behind it.
pub fn further_calls_by_name_are_followed()
    ensures { FurtherCallsByNameAreFollowed }
{}

/// So does one through a pointer.
pub fn further_calls_through_pointers_are_followed()
    ensures { FurtherCallsThroughPointersAreFollowed }
{}
