// Laws of calls of the library in expressions, each the contract of a function that does nothing.
ghost use Rattle.c65_agree_library_expr.specs.Laws.{LibraryFunctionsMayBeReached, NamedLibraryCallsAreExpressions};

/// A call of a function of the library by its name is an expression.
pub fn named_library_calls_are_expressions()
    ensures { NamedLibraryCallsAreExpressions }
{}

/// A function of the library may be reached through a pointer.
pub fn library_functions_may_be_reached()
    ensures { LibraryFunctionsMayBeReached }
{}
