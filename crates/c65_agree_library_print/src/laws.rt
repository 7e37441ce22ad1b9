// Laws of the call of `printf`, each the contract of a function that does nothing.
ghost use Rattle.c65_agree_library_print.specs.Laws.{CountedPrintfIsFollowed, PrintfIsFollowed};

/// A text is written by its format.
pub fn printf_is_followed()
    ensures { PrintfIsFollowed }
{}

/// So it is behind the line that counts the arguments.
pub fn counted_printf_is_followed()
    ensures { CountedPrintfIsFollowed }
{}
