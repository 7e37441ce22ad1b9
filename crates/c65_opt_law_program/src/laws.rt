// Laws, each the contract of a function that does nothing.
ghost use Rattle.c65_opt_law_program.specs.Laws.{LiteralsAreConstant};

/// The data of the symbols that are marked as literals are constant, and of bytes alone.
pub fn literals_are_constant()
    ensures { LiteralsAreConstant }
{}
