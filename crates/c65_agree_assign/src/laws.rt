// Laws of lines that store, each the contract of a function that does nothing.
ghost use Rattle.c65_agree_assign.specs.Laws.{AssignmentsAreFollowed, NumbersAreStored, ValuesAreAssigned};

/// The lines that store a number put its cells.
pub fn numbers_are_stored()
    ensures { NumbersAreStored }
{}

/// The step of an assignment.
pub fn assignments_are_followed()
    ensures { AssignmentsAreFollowed }
{}

/// With all lines of a store the primary register has the value again.
pub fn values_are_assigned()
    ensures { ValuesAreAssigned }
{}
