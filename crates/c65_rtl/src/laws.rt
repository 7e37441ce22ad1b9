// Laws, each the contract of a function that does nothing.
ghost use Rattle.c65_rtl.specs.Rows.{RowsAreMet, PlacementsLieLow};

/// Wherever the lines of one of these routines stand under its number, each call that its row admits does what the row says.
pub fn rows_are_met()
    ensures { RowsAreMet }
{}

/// What a call wants of a placement, that data lie in program space, every placement of a code gives.
pub fn placements_lie_low()
    ensures { PlacementsLieLow }
{}
