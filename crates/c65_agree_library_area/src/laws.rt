// Laws of calls of the library's functions, each the contract of a function that does nothing.
ghost use Rattle.c65_agree_library_area.specs.Laws.{MemcpyIsFollowed, MemsetIsFollowed, StrcpyIsFollowed};

/// Bytes are filled.
pub fn memset_is_followed()
    ensures { MemsetIsFollowed }
{}

/// Bytes are copied.
pub fn memcpy_is_followed()
    ensures { MemcpyIsFollowed }
{}

/// A text is copied.
pub fn strcpy_is_followed()
    ensures { StrcpyIsFollowed }
{}
