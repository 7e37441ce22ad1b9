// A law of tables, the contract of a function that does nothing.
ghost use Rattle.c65_opt_law_table.specs.Laws.{LiveTablesAreClosed};

/// The table of what is live after each line has all that is live before the lines that may come behind.
pub fn live_tables_are_closed()
    ensures { LiveTablesAreClosed }
{}
