// Laws of initial values of objects of blocks, each the contract of a function that does nothing.
ghost use Rattle.c65_agree_part.specs.Laws.{AreasAreBegun, AreasAreInMemory, BanksHoldNumbers, ClearsDo, ObjectsAreCleared, ObjectsMayBeSet, PartsAreSet, ValuesAreBegun, ValuesHaveAddresses};

/// The step of an initial value.
pub fn values_are_begun()
    ensures { ValuesAreBegun }
{}

/// The steps of a structure or union that is an initial value.
pub fn areas_are_begun()
    ensures { AreasAreBegun }
{}

/// The steps that make all bytes of an object zero.
pub fn objects_are_cleared()
    ensures { ObjectsAreCleared }
{}

/// The lines of a structure or union leave its address in AX.
pub fn values_have_addresses()
    ensures { ValuesHaveAddresses }
{}

/// A statement that sets a part of an object.
pub fn parts_are_set()
    ensures { PartsAreSet }
{}

/// A statement that clears an object.
pub fn clears_do()
    ensures { ClearsDo }
{}

/// What stands in regbank.
pub fn banks_hold_numbers()
    ensures { BanksHoldNumbers }
{}

/// No structure, union or array stands there.
pub fn areas_are_in_memory()
    ensures { AreasAreInMemory }
{}

/// Objects that may begin may be set.
pub fn objects_may_be_set()
    ensures { ObjectsMayBeSet }
{}
