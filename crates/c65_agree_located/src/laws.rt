// Laws of the addresses of symbols, each the contract of a function that does nothing.
ghost use Rattle.c65_agree_located.specs.Laws.{AddressesAreLocated, FunctionsAreLow, LiteralsAreLow, ObjectsAreLow, PlacesAreLow};

/// The symbol of each function of a program lies below the software stack.
pub fn functions_are_low()
    ensures { FunctionsAreLow }
{}

/// So does that of each literal.
pub fn literals_are_low()
    ensures { LiteralsAreLow }
{}

/// So does that of each object with one place for the whole run.
pub fn objects_are_low()
    ensures { ObjectsAreLow }
{}

/// A place that lines know by a symbol has one of these.
pub fn places_are_low()
    ensures { PlacesAreLow }
{}

/// A value that is the address of a symbol has 16 bits.
pub fn addresses_are_located()
    ensures { AddressesAreLocated }
{}
