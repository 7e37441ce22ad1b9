// Laws of operands that are read where they lie, each the contract of a function that does nothing.
ghost use Rattle.c65_agree_direct.specs.Laws.{
  DirectLoadsAreTested,
  DirectTreesAreRead,
  DirectTreesAreReadOn,
  KnownPlacesAreLoaded,
  OperandBytesAreUsed,
};

/// A tree whose bytes are read where they lie has a value with these bytes.
pub fn direct_trees_are_read()
    ensures { DirectTreesAreRead }
{}

/// And so in each later state with the same scene.
pub fn direct_trees_are_read_on()
    ensures { DirectTreesAreReadOn }
{}

/// An instruction works on such a byte.
pub fn operand_bytes_are_used()
    ensures { OperandBytesAreUsed }
{}

/// What is loaded there is tested by its bytes.
pub fn direct_loads_are_tested()
    ensures { DirectLoadsAreTested }
{}

/// What is kept at a known place is loaded.
pub fn known_places_are_loaded()
    ensures { KnownPlacesAreLoaded }
{}
