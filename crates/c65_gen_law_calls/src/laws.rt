// Laws of calls, each the contract of a function that does nothing.
ghost use Rattle.c65_gen_law_calls.specs.Found.{ExpressionsCallInOrder, LinesAreOfCalls};
ghost use Rattle.c65_gen_law_calls.specs.Agreement.{PrototypesAgree};
ghost use Rattle.c65_gen_law_calls.specs.Travels.{TravelsKeepHeights};
ghost use Rattle.c65_gen_law_calls.specs.Programs.{ProgramsAreCompiled};

/// The lines of an expression that call functions are those of its calls, in their order.
pub fn expressions_call_in_order()
    ensures { ExpressionsCallInOrder }
{}

/// Each line of a well typed function that calls is that of one of the body's typed calls, and takes away what this call passes.
pub fn lines_are_of_calls()
    ensures { LinesAreOfCalls }
{}

/// A well typed call by a type with a prototype agrees with each function that has the same type, down to pointers.
pub fn prototypes_agree()
    ensures { PrototypesAgree }
{}

/// On a way through the functions of a well typed program, with all calls on it, sp and what waits have the same sum at each line.
pub fn travels_keep_heights()
    ensures { TravelsKeepHeights }
{}

/// The machine that is set to the code of a well typed program has the lines of each function that has a body.
pub fn programs_are_compiled()
    ensures { ProgramsAreCompiled }
{}
