// Laws of the end of main, each the contract of a function that does nothing.
ghost use Rattle.c65_agree_end.specs.Laws.{MainIsFollowed, MainsReturn};

/// The end of main ends the run.
pub fn mains_return()
    ensures { MainsReturn }
{}

/// Main is followed from its first line to the end of the run.
pub fn main_is_followed()
    ensures { MainIsFollowed }
{}
