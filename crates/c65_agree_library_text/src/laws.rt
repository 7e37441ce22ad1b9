// Laws of calls of the library's functions, each the contract of a function that does nothing.
ghost use Rattle.c65_agree_library_text.specs.Laws.{PutsIsFollowed, StrcmpIsFollowed, StrlenIsFollowed};

/// The length of a text.
pub fn strlen_is_followed()
    ensures { StrlenIsFollowed }
{}

/// A line is written.
pub fn puts_is_followed()
    ensures { PutsIsFollowed }
{}

/// Two texts are compared.
pub fn strcmp_is_followed()
    ensures { StrcmpIsFollowed }
{}
