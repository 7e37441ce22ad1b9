// The law of rewritings, that of what follows what follows, and windows made by hand, each the contract of a function that does nothing.
ghost use Rattle.c65_opt_law_follow.specs.Laws.{FollowingComposes, JustifiedFollow};
ghost use Rattle.c65_opt_law_follow.specs.Samples.{BranchIsTaken, DeadLoadGoes, KnownLoadGoes, LiveLoadStays, NothingPasses};

/// A code in which lines of a function stand that are justified for the old ones follows the old code.
pub fn justified_lines_follow()
    ensures { JustifiedFollow }
{}

/// What follows a code that follows another one follows that one.
pub fn following_composes()
    ensures { FollowingComposes }
{}

/// A branch behind a load that clears Z goes to its label, in the one way through both lines; and a load goes where nothing is live
/// behind it or where its value is known, and stays where X is live and may have another value.
pub fn window_samples()
    ensures taken { BranchIsTaken }
    ensures passes { NothingPasses }
    ensures dead { DeadLoadGoes }
    ensures known { KnownLoadGoes }
    ensures live { LiveLoadStays }
{}
