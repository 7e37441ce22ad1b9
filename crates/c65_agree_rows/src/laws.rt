// Laws of the routines' rows, each the contract of a function that does nothing.
ghost use Rattle.c65_agree_rows.specs.Laws.{FarLoadsRun, LowersRun, NearLoadsRun, OperatorsRun, OppositesRun, PushesRun, QuietRowsScratch, RaisesRun, RoutinesAreFollowed, WideningsRun};

/// A quiet row that writes below a bound alone leaves only scratch bytes changed.
pub fn quiet_rows_scratch()
    ensures { QuietRowsScratch }
{}

/// A routine that has its room goes before what is followed behind its line.
pub fn routines_are_followed()
    ensures { RoutinesAreFollowed }
{}

/// A value that is to wait is pushed.
pub fn pushes_run()
    ensures { PushesRun }
{}

/// The stack pointer is raised over bytes that wait.
pub fn raises_run()
    ensures { RaisesRun }
{}

/// The stack pointer is lowered.
pub fn lowers_run()
    ensures { LowersRun }
{}

/// An operator takes the value that waits, and gives its result.
pub fn operators_run()
    ensures { OperatorsRun }
{}

/// The primary register is negated, complemented, shifted by one or tested.
pub fn opposites_run()
    ensures { OppositesRun }
{}

/// A byte is made a word, and a word a long word.
pub fn widenings_run()
    ensures { WideningsRun }
{}

/// A number is loaded from the bytes behind sp.
pub fn near_loads_run()
    ensures { NearLoadsRun }
{}

/// A number is loaded from the address in the primary register.
pub fn far_loads_run()
    ensures { FarLoadsRun }
{}
