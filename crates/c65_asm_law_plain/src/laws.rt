// Laws, each the contract of a function that does nothing.
ghost use Rattle.c65_asm_law_plain.specs.Laws.{PlainProgramsAreWritable};

use c65_asm_law::programs_are_writable;

/// The code of a plain program can be written as assembly text, and its numbers are of their types, where its names of external
/// linkage are identifiers that differ.
pub fn plain_programs_are_writable()
    ensures { PlainProgramsAreWritable }
{
    programs_are_writable();
}
