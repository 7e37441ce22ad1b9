// Laws of places, each the contract of a function that does nothing.
ghost use Rattle.c65_agree_places.specs.Laws.{FunctionsAreAtSymbols, HeldBytesAreOpen, LiteralsAreAtSymbols, NumbersAreThere, ObjectsAreAtHome, ObjectsAreAtSymbols, ParametersAreRaised, PartsAreBehind, PointersAreThere};

/// An object of the active call stands where its home says.
pub fn objects_are_at_home()
    ensures { ObjectsAreAtHome }
{}

/// A parameter of a variadic function lies higher by the bytes of the further arguments.
pub fn parameters_are_raised()
    ensures { ParametersAreRaised }
{}

/// An object that lives as long as the program stands at its symbol.
pub fn objects_are_at_symbols()
    ensures { ObjectsAreAtSymbols }
{}

/// A literal stands at its symbol.
pub fn literals_are_at_symbols()
    ensures { LiteralsAreAtSymbols }
{}

/// A function stands at its symbol.
pub fn functions_are_at_symbols()
    ensures { FunctionsAreAtSymbols }
{}

/// A part is so far behind its whole.
pub fn parts_are_behind()
    ensures { PartsAreBehind }
{}

/// Each byte that a live block holds may be reached.
pub fn held_bytes_are_open()
    ensures { HeldBytesAreOpen }
{}

/// The word of a number that is read is that of the bytes at its place.
pub fn numbers_are_there()
    ensures { NumbersAreThere }
{}

/// The word of a pointer that is read is that of the two bytes at its place.
pub fn pointers_are_there()
    ensures { PointersAreThere }
{}
