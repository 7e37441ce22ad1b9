// Laws of typed calls of the library, each the contract of a function that does nothing.
ghost use Rattle.c65_agree_library_typed.specs.Laws.{AcceptedLibraryCallsFit, LibraryFunctionsHaveTypes, TypedArgumentsAreFew};

/// A call that is accepted passes what the function takes.
pub fn accepted_library_calls_fit()
    ensures { AcceptedLibraryCallsFit }
{}

/// A function of the library has its type.
pub fn library_functions_have_types()
    ensures { LibraryFunctionsHaveTypes }
{}

/// The arguments of a call are few.
pub fn typed_arguments_are_few()
    ensures { TypedArgumentsAreFew }
{}
