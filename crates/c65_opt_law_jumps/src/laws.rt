// Laws of rules, each the contract of a function that does nothing.
ghost use Rattle.c65_opt_law_kept.specs.Laws.{RuleIsFollowed};

/// A jump or a branch to what follows at once goes, a branch round a jump is turned, and a branch that is known not to be taken goes.
pub fn jumps_are_followed()
    ensures idle_jump { RuleIsFollowed 1 }
    ensures idle_branch { RuleIsFollowed 2 }
    ensures inverted { RuleIsFollowed 6 }
    ensures passed_branch { RuleIsFollowed 8 }
{}

/// The line behind a jump, a return or a branch that is known to be taken goes, whatever it is, where no label stands before it.
pub fn unreached_lines_go()
    ensures closed { RuleIsFollowed 3 }
    ensures taken { RuleIsFollowed 9 }
{}
