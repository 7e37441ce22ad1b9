// Laws, each the contract of a function that does nothing.
ghost use Rattle.c65_rtl_law_printf_fields.specs.Choosing.{LettersAreChosen, LongsAreTaken, WordsAreTaken};
ghost use Rattle.c65_rtl_law_printf_fields.specs.Numbers.{NumbersAreMade};
ghost use Rattle.c65_rtl_law_printf_fields.specs.Signs.{SignsAreTaken};
ghost use Rattle.c65_rtl_law_printf_fields.specs.Spaces.{SpacesAreWritten};

/// Wherever the lines of `printf` stand, they go by the letter of a conversion to its own lines.
pub fn letters_are_chosen()
    ensures { LettersAreChosen }
{}

/// Wherever the lines of `printf` stand, they take the argument of the conversions d, u and x, for d with its sign spread.
pub fn words_are_taken()
    ensures { WordsAreTaken }
{}

/// Wherever the lines of `printf` stand, they take the argument of the conversions ld and lu.
pub fn longs_are_taken()
    ensures { LongsAreTaken }
{}

/// Wherever the lines of `printf` stand, they keep the minus sign of a negative number, and turn the number.
pub fn signs_are_taken()
    ensures { SignsAreTaken }
{}

/// Wherever the lines of `printf` stand, and those of what they call, they push the digits of a number with its sign before them.
pub fn numbers_are_made()
    ensures { NumbersAreMade }
{}

/// Wherever these lines stand, they write a space for each byte that a text is shorter than its width.
pub fn spaces_are_written()
    ensures { SpacesAreWritten }
{}
