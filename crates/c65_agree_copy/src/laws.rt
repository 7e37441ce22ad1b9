// Laws of copies, each the contract of a function that does nothing.
ghost use Rattle.c65_agree_copy.specs.Laws.{CopiesAreFollowed, CopiesRun, LibraryCopiesRun};

/// The routine that copies, where the copy is defined.
pub fn copies_run()
    ensures { CopiesRun }
{}

/// The lines of a copy do what its steps do.
pub fn copies_are_followed()
    ensures { CopiesAreFollowed }
{}

/// The routine of the library's copy.
pub fn library_copies_run()
    ensures { LibraryCopiesRun }
{}
