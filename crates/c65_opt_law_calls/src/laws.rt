// Laws of calls and returns from near states, each the contract of a function that does nothing.
ghost use Rattle.c65_opt_law_calls.specs.Laws.{CallsStayNear, EndsStayNear, ReturnsStayNear};

/// A call of a function leads from near states to its first line in near states.
pub fn calls_stay_near()
    ensures { CallsStayNear }
{}

/// A return leads from near states behind the call in near states.
pub fn returns_stay_near()
    ensures { ReturnsStayNear }
{}

/// The return of main ends the runs from near states with one status.
pub fn ends_stay_near()
    ensures { EndsStayNear }
{}
