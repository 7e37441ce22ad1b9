// Laws of loads, each the contract of a function that does nothing.
ghost use Rattle.c65_agree_access.specs.LoadLaws.{BankedLoadsDo, LoadsDo, PlacesAreWhole};

/// A place of a number or pointer is taken as whole.
pub fn places_are_whole()
    ensures { PlacesAreWhole }
{}

/// What is kept in memory is loaded.
pub fn loads_do()
    ensures { LoadsDo }
{}

/// So is what is kept in regbank.
pub fn banked_loads_do()
    ensures { BankedLoadsDo }
{}
