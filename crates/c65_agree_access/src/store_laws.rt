// Laws of assignments, each the contract of a function that does nothing.
ghost use Rattle.c65_agree_access.specs.StoreLaws.{BankedAssignmentsDo, HeldAssignmentsDo, LeftAssignmentsDo, StackedAssignmentsDo};

/// A value is stored while its address waits.
pub fn stacked_assignments_do()
    ensures { StackedAssignmentsDo }
{}

/// A value is stored in regbank.
pub fn banked_assignments_do()
    ensures { BankedAssignmentsDo }
{}

/// A value is stored behind an address that waits in ptr2.
pub fn held_assignments_do()
    ensures { HeldAssignmentsDo }
{}

/// A number that is read behind an address in ptr1 is stored there.
pub fn left_assignments_do()
    ensures { LeftAssignmentsDo }
{}
