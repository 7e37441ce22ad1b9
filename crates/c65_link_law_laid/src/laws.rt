// Laws, each the contract of a function that does nothing.
ghost use Rattle.c65_link_law_laid.specs.Laws.{LinesAreApart, LinkedCodesAreLaid};

/// When a run of a linked image begins, each function, each routine that is used and the start stand in memory line by line,
/// so that rows can follow them: labels, symbols and calls lead to where the units are, below the data, and the processor has
/// each line's row.
pub fn linked_codes_are_laid()
    ensures { LinkedCodesAreLaid }
{}

/// In the image of a linked code no byte is of two lines, one of which is a function's: so where a run stands at the first byte of a
/// function's instruction, it stands at no other line.
pub fn lines_are_apart()
    ensures { LinesAreApart }
{}
