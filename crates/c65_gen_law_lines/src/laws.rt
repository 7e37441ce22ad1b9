// Laws of the lines that the generator writes, each the contract of a function that does nothing.
ghost use Rattle.c65_gen_law_lines.specs.Laws.{ExpressionsOwnTheirLabels, ExpressionsAreSmall, ExpressionsAreFit, ExpressionsKeepTheStack, StatementsKeepTheStack, CallsAreCounted, FramesAreSmall, HomesAreApart, FunctionsAreSmall, ProgramsAreSmall, ProgramsAreNmos, FunctionsAreSegments};

/// An expression's lines, for its value or for a test of it, have the labels from the first free one on, as many as it uses, each once;
/// their branches lead to these alone, and those of a test to its own label too.
pub fn expressions_own_their_labels()
    ensures { ExpressionsOwnTheirLabels }
{}

/// An expression's lines, for its value or for a test of it, have at most 128 bytes for each of its nodes.
pub fn expressions_are_small()
    ensures { ExpressionsAreSmall }
{}

/// Each line of an expression may stand in a segment.
pub fn expressions_are_fit()
    ensures { ExpressionsAreFit }
{}

/// The lines of a well typed function are a segment: no label stands twice, each branch leads to a label, and the last line leaves.
pub fn functions_are_segments()
    ensures { FunctionsAreSegments }
{}

/// An expression's lines take away from the software stack what they pushed, and nothing else; a call takes away its arguments.
pub fn expressions_keep_the_stack()
    ensures { ExpressionsKeepTheStack }
{}

/// A statement's lines do so too.
pub fn statements_keep_the_stack()
    ensures { StatementsKeepTheStack }
{}

/// The bytes that a call passes on the software stack are those that it counts.
pub fn calls_are_counted()
    ensures { CallsAreCounted }
{}

/// A frame has at most 1,024 bytes, and one for the number of bytes that a variadic call pushed.
pub fn frames_are_small()
    ensures { FramesAreSmall }
{}

/// A function has at most 128 bytes for itself, each parameter and each node of its body.
pub fn functions_are_small()
    ensures { FunctionsAreSmall }
{}

/// No byte of regbank or above sp is part of two homes of a function, and its homes in regbank are together the bytes that it takes.
pub fn homes_are_apart()
    ensures { HomesAreApart }
{}

/// The extent of a program's code is at most 128 bytes for each function that has a body, each of its parameters and each node of the body.
pub fn programs_are_small()
    ensures { ProgramsAreSmall }
{}

/// The lines of a program run on the 6502: none has a row that the 65C02 adds.
pub fn programs_are_nmos()
    ensures { ProgramsAreNmos }
{}
