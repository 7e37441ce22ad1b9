// The laws of calls of routines from near states, each the contract of a function that does nothing.
ghost use Rattle.c65_opt_law_rows.specs.Laws.{LibraryCallsStayNear, RoutinesStayNear};

/// A routine leads from near states to near ones, needs the same of both, and costs the same.
pub fn routines_stay_near()
    ensures { RoutinesStayNear }
{}

/// So does a function of the library that is called by its name or through a pointer.
pub fn library_calls_stay_near()
    ensures { LibraryCallsStayNear }
{}
