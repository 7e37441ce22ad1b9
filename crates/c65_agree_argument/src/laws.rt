// Laws of arguments, each the contract of a function that does nothing.
ghost use Rattle.c65_agree_argument.specs.Laws.{ArgumentsAreFollowed, ArgumentsLeaveWeight, ScalarsArePassed, ValuesArePushed};
ghost use Rattle.c65_agree_argument.specs.Passed.{ArgumentsArePassed};

/// A value that is passed goes to the software stack.
pub fn values_are_pushed()
    ensures { ValuesArePushed }
{}

/// Numbers and pointers are arguments.
pub fn scalars_are_passed()
    ensures { ScalarsArePassed }
{}

/// The lines of arguments do the work of all.
pub fn arguments_are_followed()
    ensures { ArgumentsAreFollowed }
{}

/// They leave weight for the entry of the called function.
pub fn arguments_leave_weight()
    ensures { ArgumentsLeaveWeight }
{}

/// Arguments lie where the called function takes its parameters from.
pub fn arguments_are_passed()
    ensures { ArgumentsArePassed }
{}
