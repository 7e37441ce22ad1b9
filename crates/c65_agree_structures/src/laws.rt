// Laws of structures that are passed and given, each the contract of a function that does nothing.
ghost use Rattle.c65_agree_structures.specs.Bases.{AddressesAreBases, ObjectsAreBases};
ghost use Rattle.c65_agree_structures.specs.Copies.{CopiesDo, PlacesHaveAddresses};
ghost use Rattle.c65_agree_structures.specs.Laws.{AreasAreLoaded};
ghost use Rattle.c65_agree_structures.specs.Members.{ConstantSumsAreBases, MembersAreBases, MembersHaveAddresses, NamesAreBases, PointersAreBases, SumsAreBases, TargetsAreBases, TargetsHaveAddresses};
ghost use Rattle.c65_agree_structures.specs.Moved.{MovedTypesHaveBytes, PlainSumsAreBases};
ghost use Rattle.c65_agree_structures.specs.Packs.{PacksAreArguments, PacksAreResults, PacksDo};
ghost use Rattle.c65_agree_structures.specs.Results.{NothingComesBack, ResultsComeBack, StructuresComeBack};
ghost use Rattle.c65_agree_structures.specs.Spills.{SpillsDo};
ghost use Rattle.c65_agree_structures.specs.Takers.{ScopedTakersAreHomed, TakersAreHomed};

/// A call that gives nothing leaves nothing.
pub fn nothing_comes_back()
    ensures { NothingComesBack }
{}

/// A structure that a call gives comes to the primary register.
pub fn structures_come_back()
    ensures { StructuresComeBack }
{}

/// The bytes of a structure come to the primary register.
pub fn areas_are_loaded()
    ensures { AreasAreLoaded }
{}

/// An address in AX tells a place.
pub fn addresses_are_bases()
    ensures { AddressesAreBases }
{}

/// So does an object's home.
pub fn objects_are_bases()
    ensures { ObjectsAreBases }
{}

/// A structure that is passed or returned does its work.
pub fn packs_do()
    ensures { PacksDo }
{}

/// So it is an argument.
pub fn packs_are_arguments()
    ensures { PacksAreArguments }
{}

/// The bytes that a call gives go to the object that takes them.
pub fn spills_do()
    ensures { SpillsDo }
{}

/// A structure is assigned.
pub fn copies_do()
    ensures { CopiesDo }
{}

/// All that a function may give comes back.
pub fn results_come_back()
    ensures { ResultsComeBack }
{}

/// A structure that is returned is a function's result.
pub fn packs_are_results()
    ensures { PacksAreResults }
{}

/// A member has an address.
pub fn members_have_addresses()
    ensures { MembersHaveAddresses }
{}

/// A member's place is told by that of its structure.
pub fn members_are_bases()
    ensures { MembersAreBases }
{}

/// What a pointer names is told by the pointer.
pub fn targets_are_bases()
    ensures { TargetsAreBases }
{}

/// The value of a pointer tells what it names.
pub fn pointers_are_bases()
    ensures { PointersAreBases }
{}

/// The address of an object tells the object.
pub fn names_are_bases()
    ensures { NamesAreBases }
{}

/// The object that takes what a call gives has a home.
pub fn takers_are_homed()
    ensures { TakersAreHomed }
{}

/// So has each that is in scope.
pub fn scoped_takers_are_homed()
    ensures { ScopedTakersAreHomed }
{}

/// The value of a sum tells what it names.
pub fn sums_are_bases()
    ensures { SumsAreBases }
{}

/// So does a sum with a constant, where the generator takes it so.
pub fn constant_sums_are_bases()
    ensures { ConstantSumsAreBases }
{}

/// What a pointer names has an address.
pub fn targets_have_addresses()
    ensures { TargetsHaveAddresses }
{}

/// So has each place in memory.
pub fn places_have_addresses()
    ensures { PlacesHaveAddresses }
{}

/// What the moved pointers of a plain program point to has bytes.
pub fn moved_types_have_bytes()
    ensures { MovedTypesHaveBytes }
{}

/// So a pointer with a constant added to it has a base.
pub fn plain_sums_are_bases()
    ensures { PlainSumsAreBases }
{}
