// The law of tables, the contract of a function that does nothing.
ghost use Rattle.c65_live_law.specs.Laws.{LiveTablesExist};

/// Any lines have a table of what is live after each of them, whatever their function gives.
pub fn live_tables_exist()
    ensures { LiveTablesExist }
{}
