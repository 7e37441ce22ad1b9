// Laws of assignments, each the contract of a function that does nothing.
ghost use Rattle.c65_agree_assigned.specs.Laws.{AssignmentEffectsDo, AssignmentsDo, LeftPointersDo, RightAssignmentsDo};

/// A value is stored behind a pointer that is read behind it.
pub fn right_assignments_do()
    ensures { RightAssignmentsDo }
{}

/// A pointer that is read behind an address in ptr1 is stored there.
pub fn left_pointers_do()
    ensures { LeftPointersDo }
{}

/// Whatever the form, the value is stored.
pub fn assignments_do()
    ensures { AssignmentsDo }
{}

/// So it is where it is not used.
pub fn assignment_effects_do()
    ensures { AssignmentEffectsDo }
{}
