// Laws of the software stack, each the contract of a function that does nothing.
ghost use Rattle.c65_gen_law_stack.specs.Calls.{EntriesLowerSp, EndsRaiseSp, EndsUndoEntries};
ghost use Rattle.c65_gen_law_stack.specs.Heights.{ExpressionsAreLevel, TestsAreLevel, FunctionsAreLevel};
ghost use Rattle.c65_gen_law_stack.specs.Bank.{FunctionsLeaveRegbank, MovesLeaveRegbank};
ghost use Rattle.c65_gen_law_stack.specs.Light.{LightLinesLeavePtr2, MovesLeavePtr2};
ghost use Rattle.c65_gen_law_stack.specs.Walks.{WalksKeepHeights};
ghost use Rattle.c65_gen_law_stack.specs.Parameters.{CallsPassWhatIsTaken, CallsPassTheirParameters};
ghost use Rattle.c65_gen_law_stack.specs.Going.{MovesKeepHeights, FunctionsKeepHeights, CallsKeepHeights};

/// A function's entry lowers sp by the bytes that its frame says, and puts regbank away as it found it.
pub fn entries_lower_sp()
    ensures { EntriesLowerSp }
{}

/// A function's end raises sp by them and by all parameters, brings back regbank as it was put away, and goes behind the call.
pub fn ends_raise_sp()
    ensures { EndsRaiseSp }
{}

/// So the end undoes the entry: behind a call regbank is as before it, and sp is higher by exactly the parameters that the call pushed.
pub fn ends_undo_entries()
    ensures { EndsUndoEntries }
{}

/// Whichever line of an expression leads to a label, the same values wait on the software stack there as at the label, which is one of its own.
pub fn expressions_are_level()
    ensures { ExpressionsAreLevel }
{}

/// So it is where an expression is tested, and whichever line leads to the label of the test, as much waits there as at first.
pub fn tests_are_level()
    ensures { TestsAreLevel }
{}

/// So it is with the lines of a well typed function between its entry and its end, before and behind which nothing waits.
pub fn functions_are_level()
    ensures { FunctionsAreLevel }
{}

/// As the machine goes through such lines, sp lies lower by exactly the bytes that wait, whichever way it goes.
pub fn moves_keep_heights()
    ensures { MovesKeepHeights }
{}

/// So it is in each function: between its entry and its end sp is the frame's, lower by the bytes that wait.
pub fn functions_keep_heights()
    ensures { FunctionsKeepHeights }
{}

/// A call whose arguments are of the types that the function's parameters are passed as passes as many bytes on the software stack as
/// the end of the function takes away there.
pub fn calls_pass_what_is_taken()
    ensures { CallsPassWhatIsTaken }
{}

/// A call with a prototype passes as many bytes on the software stack as the end of the function takes away there.
pub fn calls_pass_their_parameters()
    ensures { CallsPassTheirParameters }
{}

/// So it is behind a call, where it takes away what the function takes and the function's body leaves sp and what its entry put away as they were.
pub fn calls_keep_heights()
    ensures { CallsKeepHeights }
{}

/// A function that takes nothing of regbank, and so does not save it, has no line that writes any of it.
pub fn functions_leave_regbank()
    ensures { FunctionsLeaveRegbank }
{}

/// A move by such a line leaves regbank as it was.
pub fn moves_leave_regbank()
    ensures { MovesLeaveRegbank }
{}

/// On a way from one line of a function to another sp and what waits have the same sum at each line, with all calls on it and in these.
pub fn walks_keep_heights()
    ensures { WalksKeepHeights }
{}

/// No line of a light expression writes ptr2, where a word may wait, or calls what may change it.
pub fn light_lines_leave_ptr2()
    ensures { LightLinesLeavePtr2 }
{}

/// And a move by such a line, as of any that neither writes ptr2 nor calls what may change it, leaves the word there.
pub fn moves_leave_ptr2()
    ensures { MovesLeavePtr2 }
{}
