// Laws of lines from near states, each the contract of a function that does nothing.
ghost use Rattle.c65_opt_law_near.specs.Laws.{CalmStays, OperationsStayNear, OperationsStaySteady};

/// An operation, a branch, a jump, a push or a pull leads from near states to near ones.
pub fn operations_stay_near()
    ensures { OperationsStayNear }
{}

/// Where such a line is steady in a state, it is so in each that is near.
pub fn operations_stay_steady()
    ensures { OperationsStaySteady }
{}

/// What holds at every moment of a steady run holds in each near state.
pub fn calm_stays()
    ensures { CalmStays }
{}
