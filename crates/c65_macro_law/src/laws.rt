// Laws of expansions that are fed line by line, each the contract of a function that does nothing.
ghost use Rattle.c65_macro_law.specs.Fed.{FedLinesAreRefused, FedLinesEndRefused, FedLinesExpand, LinesAreFedAsOne};

/// Lines that are fed one after another are fed as one line of all their tokens.
pub fn lines_are_fed_as_one()
    ensures { LinesAreFedAsOne }
{}

/// What came out of a new expander from its first line to its end is the expansion of all lines.
pub fn fed_lines_expand()
    ensures { FedLinesExpand }
{}

/// The refusal of a line is that of all lines up to it, whatever follows.
pub fn fed_lines_are_refused()
    ensures { FedLinesAreRefused }
{}

/// The refusal at the end is that of all lines.
pub fn fed_lines_end_refused()
    ensures { FedLinesEndRefused }
{}
