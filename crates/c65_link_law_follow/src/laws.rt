// Laws, each the contract of a function that does nothing.
ghost use Rattle.c65_link_law_follow.specs.Laws.{LinesAreFollowed};
ghost use Rattle.c65_link_law_follow.specs.Example.{CountingIsLaid};

/// Where the lines of a unit stand in memory as machine code, and the states of the two machines agree, each line that stays
/// within its bounds is followed by one row, or for a branch by at most two: the guard refuses none of them, and the states
/// agree again at the place that the line leads to. It holds on both processors, and of all lines but calls of hooks.
pub fn lines_are_followed()
    ensures { LinesAreFollowed }
{}

/// A routine that counts X down from 2 stands so in memory at $0200, as an assembler by hand would put it.
pub fn counting_is_laid()
    ensures { CountingIsLaid }
{}
