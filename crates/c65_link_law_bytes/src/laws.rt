// Laws, each the contract of a function that does nothing.
ghost use Rattle.c65_link_law_bytes.specs.Laws.{FilesAreBytes, ReadCodesHaveBytes};

/// Where the numbers in the lines and in the data of a code are of bytes, each number of its image's file is.
pub fn files_are_bytes()
    ensures { FilesAreBytes }
{}

/// The code that the text of a code reads as, where its numbers are of their types, has numbers of bytes alone in its lines and
/// in its data.
pub fn read_codes_have_bytes()
    ensures { ReadCodesHaveBytes }
{}
