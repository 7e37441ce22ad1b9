// Laws of calls of the library's functions, each the contract of a function that does nothing.
ghost use Rattle.c65_agree_library_call.specs.Laws.{LibraryCallsAreFollowed, PrintfCallsAreFollowed};

/// A function of the library is called, by its name or through a pointer.
pub fn library_calls_are_followed()
    ensures { LibraryCallsAreFollowed }
{}

/// So is `printf`.
pub fn printf_calls_are_followed()
    ensures { PrintfCallsAreFollowed }
{}
