// Laws of rules, each the contract of a function that does nothing.
ghost use Rattle.c65_opt_law_chains.specs.Laws.{FollowingHolds, FollowingUntilEndComposes, RuleIsFollowedUntilEnd};
ghost use Rattle.c65_opt_law_kept.specs.Laws.{RuleIsFollowed};

/// A label to which no line refers goes.
pub fn unused_labels_go()
    ensures { RuleIsFollowed 7 }
{}

/// A jump or a branch to a chain of jumps goes to the chain's end.
pub fn chains_are_followed()
    ensures jump { RuleIsFollowedUntilEnd 4 }
    ensures branch { RuleIsFollowedUntilEnd 5 }
{}

/// What follows another code follows it until the end, and so does what follows a code until the end that follows another one so.
pub fn following_until_end_composes()
    ensures holds { FollowingHolds }
    ensures composes { FollowingUntilEndComposes }
{}
