// Laws of low bytes that are loaded, each the contract of a function that does nothing.
ghost use Rattle.c65_agree_access.specs.Lows.{LowLoadLinesAre, LowLoadsDo};

/// The low byte behind a pointer is loaded.
pub fn low_loads_do()
    ensures { LowLoadsDo }
{}

/// The generator's lines are these.
pub fn low_load_lines_are()
    ensures { LowLoadLinesAre }
{}
