// Laws, each the contract of a function that does nothing.
ghost use Rattle.c65_rtl_law_hooks.specs.Rows.{ProgramsExit};

/// Wherever the lines of `exit` stand under its number, each call that its row admits ends the run with the status that the row
/// says.
pub fn programs_exit()
    ensures { ProgramsExit }
{}
