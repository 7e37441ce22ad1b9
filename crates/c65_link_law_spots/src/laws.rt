// Laws, each the contract of a function that does nothing.
ghost use Rattle.c65_link_law_spots.specs.Laws.{UsesAreChosen, PlacesArePlacements, UnitsStand, DataAreLoaded};

/// Each routine that a linked code may come to stands in the image: those that the start, the functions and the data
/// name, and those that such a routine calls.
pub fn uses_are_chosen()
    ensures { UsesAreChosen }
{}

/// The addresses that the linker gives to the symbols of a code are a placement of it: data lie apart from each other in
/// program space, and each symbol of a function has an address of its own outside them.
pub fn places_are_placements()
    ensures { PlacesArePlacements }
{}

/// Where an image's file stands in memory from $0200 on, the lines of each unit, which is a function, a routine that is used or
/// the start, stand there as machine code, below the data.
pub fn units_stand()
    ensures { UnitsStand }
{}

/// When a run of an image begins, the bytes of each datum stand at its symbol's address, and its zeros behind them.
pub fn data_are_loaded()
    ensures { DataAreLoaded }
{}
