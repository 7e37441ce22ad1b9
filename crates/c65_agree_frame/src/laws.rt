// Laws of entries and ends, each the contract of a function that does nothing.
ghost use Rattle.c65_agree_frame.specs.Ends.{EndsAreFollowed};
ghost use Rattle.c65_agree_frame.specs.Entries.{EntriesLead};
ghost use Rattle.c65_agree_frame.specs.Further.{EntriesCount};
ghost use Rattle.c65_agree_frame.specs.Laws.{BanksAreBrought, BanksAreSaved, StacksAreLowered, StacksAreRaised};

/// sp is raised.
pub fn stacks_are_raised()
    ensures { StacksAreRaised }
{}

/// sp is lowered.
pub fn stacks_are_lowered()
    ensures { StacksAreLowered }
{}

/// Regbank is put away.
pub fn banks_are_saved()
    ensures { BanksAreSaved }
{}

/// Regbank is brought back.
pub fn banks_are_brought()
    ensures { BanksAreBrought }
{}

/// The end of a function goes before what is followed behind its call.
pub fn ends_are_followed()
    ensures { EndsAreFollowed }
{}

/// The entry of a function leads to its first statement.
pub fn entries_lead()
    ensures { EntriesLead }
{}

/// So does that of a function that takes further arguments, whose frame then holds the number of their bytes.
pub fn entries_count()
    ensures { EntriesCount }
{}
