// Laws of the functions of a program, each the contract of a function that does nothing.
ghost use Rattle.c65_agree_function.specs.Laws.{FunctionsDo, FunctionsHaveEnds, MainsArgumentsLie};
ghost use Rattle.c65_agree_function.specs.Results.{FunctionsGiveByType, MainGivesA};

/// The entry and the end of a function stand among its lines.
pub fn functions_have_ends()
    ensures { FunctionsHaveEnds }
{}

/// The lines of a function do the work of its body.
pub fn functions_do()
    ensures { FunctionsDo }
{}

/// Where main begins its arguments lie where its parameters have their homes.
pub fn mains_arguments_lie()
    ensures { MainsArgumentsLie }
{}

/// A function gives the registers that the type of its result takes.
pub fn functions_give_by_type()
    ensures { FunctionsGiveByType }
{}

/// The status of a run is in A where main ends.
pub fn main_gives_a()
    ensures { MainGivesA }
{}
