// Laws, each the contract of a function that does nothing.
ghost use Rattle.c65_link_law_reach.specs.Laws.{CodesAreFollowed};

/// Where the states agree at a line of a linked code, each routine does what its row says, and the lines come to what passes a test
/// within a weight, the image comes to it within as many rows and 2 more, with the guard's leave.
pub fn codes_are_followed()
    ensures { CodesAreFollowed }
{}
