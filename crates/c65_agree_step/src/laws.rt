// Laws of ways, each the contract of a function that does nothing.
ghost use Rattle.c65_agree_step.specs.Ways.{ForEach, ForEachTwo};
ghost use Rattle.c65_agree_step.specs.Laws.{BranchesGo, CallsEnter, JumpsGo, LabelsArePassed, LibraryCallsGo, MainEnds, OperationsGo, PointerCallsEnter, PullsGo, PushesGo, ReturnsGo, RoutinesGo, WaysJoin, WaysWeaken};

/// A way within a weight is one within a greater weight.
pub fn ways_weaken()
    ensures { ForEach WaysWeaken }
{}

/// One way goes on behind another, and their weights add up.
pub fn ways_join()
    ensures { ForEachTwo WaysJoin }
{}

/// Where a label stands the machine stands behind it.
pub fn labels_are_passed()
    ensures { LabelsArePassed }
{}

/// An operation on registers and memory goes on behind itself with its one result.
pub fn operations_go()
    ensures { ForEach OperationsGo }
{}

/// A branch goes on at its label or behind itself, by the flags.
pub fn branches_go()
    ensures { ForEach BranchesGo }
{}

/// A jump goes on at its label.
pub fn jumps_go()
    ensures { ForEach JumpsGo }
{}

/// PHA goes on behind itself with A pushed.
pub fn pushes_go()
    ensures { ForEach PushesGo }
{}

/// PLA goes on behind itself with the byte that was pushed last.
pub fn pulls_go()
    ensures { ForEach PullsGo }
{}

/// A routine goes on behind its call with any state that its row allows.
pub fn routines_go()
    ensures { ForEach RoutinesGo }
{}

/// A call of a function goes on at its first line, with a frame more.
pub fn calls_enter()
    ensures { ForEach CallsEnter }
{}

/// A call of a library function goes on behind itself with any state that its row allows.
pub fn library_calls_go()
    ensures { ForEach LibraryCallsGo }
{}

/// A call through a pointer goes on at the first line of the function at that address.
pub fn pointer_calls_enter()
    ensures { ForEach PointerCallsEnter }
{}

/// A return goes on behind the call.
pub fn returns_go()
    ensures { ForEach ReturnsGo }
{}

/// The return of main ends the run.
pub fn main_ends()
    ensures { ForEach MainEnds }
{}
