// Laws of the machine on lines, each the contract of a function that does nothing.
ghost use Rattle.c65_code_law.specs.Laws.{NeverSticks};

/// Where a steady run stands at a line, there is a move: each routine's row is met by some state.
pub fn never_sticks()
    ensures { NeverSticks }
{}
