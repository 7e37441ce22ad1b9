// Laws of the text of programs, each the contract of a function that does nothing.
ghost use Rattle.c65_asm_law.specs.Laws.{ProgramsAreWritable, ProgramsReadBack};

/// The code of a well typed program can be written as assembly text, and its numbers are of their types.
pub fn programs_are_writable()
    ensures { ProgramsAreWritable }
{}

/// The text that is printed of a program is never refused: it reads back as the program's code, renumbered.
pub fn programs_read_back()
    ensures { ProgramsReadBack }
{}
