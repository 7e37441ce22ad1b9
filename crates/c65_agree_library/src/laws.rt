// Laws of calls of the library's functions, each the contract of a function that does nothing.
ghost use Rattle.c65_agree_library.specs.Laws.{ExitIsFollowed, GetcharIsFollowed, PutcharIsFollowed};

/// A character is written.
pub fn putchar_is_followed()
    ensures { PutcharIsFollowed }
{}

/// A character is read.
pub fn getchar_is_followed()
    ensures { GetcharIsFollowed }
{}

/// The run ends.
pub fn exit_is_followed()
    ensures { ExitIsFollowed }
{}
