// Laws, each the contract of a function that does nothing.
ghost use Rattle.c65_rtl_law_library.specs.Rows.{CharactersAreRead, CharactersAreWritten, LinesAreWritten};

/// Wherever the lines of `putchar`, `pushax` and `popax` stand under their numbers, each call of `putchar` that its row admits
/// does what the row says: it writes the byte by the simulator's hook and comes back with it, in fewer instructions than the row
/// costs.
pub fn characters_are_written()
    ensures { CharactersAreWritten }
{}

/// So it is with `getchar`, which calls `pusha`, `popa`, `push0`, `pushax` and `incsp1`: it takes the next byte of the input and
/// comes back with it, or with -1 where none is left.
pub fn characters_are_read()
    ensures { CharactersAreRead }
{}

/// So it is with `puts`, which calls `pushax`, `strlen`, `ldaxysp`, `incsp4` and `putchar`: it writes the text and a line feed, and comes
/// back with 0.
pub fn lines_are_written()
    ensures { LinesAreWritten }
{}
