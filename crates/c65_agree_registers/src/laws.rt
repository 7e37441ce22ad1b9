// Laws of entries, each the contract of a function that does nothing.
ghost use Rattle.c65_agree_registers.specs.Checks.{SmallStacksEnd, StacksAreChecked};
ghost use Rattle.c65_agree_registers.specs.Entries.{EntriesMove};

/// The lines of the check lead on where the stacks reach.
pub fn stacks_are_checked()
    ensures { StacksAreChecked }
{}

/// Where one does not, the run ends there with status 240.
pub fn small_stacks_end()
    ensures { SmallStacksEnd }
{}

/// The lines of an entry bring the parameters to regbank that stand there.
pub fn entries_move()
    ensures { EntriesMove }
{}
