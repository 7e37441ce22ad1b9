// Laws, each the contract of a function that does nothing.
ghost use Rattle.c65_gen_law_names.specs.Laws.{ExpressionsNameTheirItems, FunctionsNameTheirItems, ProgramsAreClosed, MainHasLines};

/// The lines of an expression, of its value or of a test, name no symbols but those of the literals, of the functions, and of the
/// objects without a home in the frame that the expression names.
pub fn expressions_name_their_items()
    ensures { ExpressionsNameTheirItems }
{}

/// So it is with the lines of a function and the items that its body names.
pub fn functions_name_their_items()
    ensures { FunctionsNameTheirItems }
{}

/// Each symbol that the lines or the data of a program name has lines, data, or a function of the library for its name.
pub fn programs_are_closed()
    ensures { ProgramsAreClosed }
{}

/// The main function of a program has lines, and the symbol `_main`.
pub fn main_has_lines()
    ensures { MainHasLines }
{}
