// Laws of stores, each the contract of a function that does nothing.
ghost use Rattle.c65_agree_put.specs.Laws.{BanksFollow, PutsAreKept, PutsAreTaken, PutsJoin, StoresRun, ValuesAreLaid, WaitingIsKept, WritesArePuts};

/// Where the bytes of a place are stored the scene with their cells belongs to the state.
pub fn puts_join()
    ensures { PutsJoin }
{}

/// All is kept that an expression keeps.
pub fn puts_are_kept()
    ensures { PutsAreKept }
{}

/// The next part of an expression may begin there.
pub fn puts_are_taken()
    ensures { PutsAreTaken }
{}

/// The banks behind a store.
pub fn banks_follow()
    ensures { BanksFollow }
{}

/// What waits is pushed before an expression and taken off behind it.
pub fn waiting_is_kept()
    ensures { WaitingIsKept }
{}

/// The meaning's store puts the cells of a value into a live block.
pub fn writes_are_puts()
    ensures { WritesArePuts }
{}

/// The bytes of the primary register may be laid down as the cells of its value.
pub fn values_are_laid()
    ensures { ValuesAreLaid }
{}

/// A routine stores the bytes of cells into a live block.
pub fn stores_run()
    ensures { StoresRun }
{}
