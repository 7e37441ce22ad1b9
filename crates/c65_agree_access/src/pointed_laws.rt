// Laws of places whose base comes to ptr1, each the contract of a function that does nothing.
ghost use Rattle.c65_agree_access.specs.PointedLaws.{ConstantSumsArePointed, ElementsHaveSizes, MembersArePointed, NamesArePointed, OwnBasesArePointed, PointersArePointed, SumsArePointed, TargetsArePointed};
ghost use Rattle.c65_agree_access.specs.Sums.{DirectLeftSumsPoint, DirectRightSumsPoint, HeldSumsPoint};

/// The place of an object is told there.
pub fn own_bases_are_pointed()
    ensures { OwnBasesArePointed }
{}

/// So is that of a member.
pub fn members_are_pointed()
    ensures { MembersArePointed }
{}

/// What a pointer names is told by the pointer.
pub fn targets_are_pointed()
    ensures { TargetsArePointed }
{}

/// The value of a pointer comes there.
pub fn pointers_are_pointed()
    ensures { PointersArePointed }
{}

/// A type has its size in the frame's tables.
pub fn elements_have_sizes()
    ensures { ElementsHaveSizes }
{}

/// The address of an object tells the object.
pub fn names_are_pointed()
    ensures { NamesArePointed }
{}

/// So does a sum with a constant.
pub fn constant_sums_are_pointed()
    ensures { ConstantSumsArePointed }
{}

/// The value of a sum comes there.
pub fn sums_are_pointed()
    ensures { SumsArePointed }
{}

/// The sum of AX and what is read comes there.
pub fn direct_right_sums_point()
    ensures { DirectRightSumsPoint }
{}

/// So does the sum of what is read and AX.
pub fn direct_left_sums_point()
    ensures { DirectLeftSumsPoint }
{}

/// And that of what waits and AX.
pub fn held_sums_point()
    ensures { HeldSumsPoint }
{}
