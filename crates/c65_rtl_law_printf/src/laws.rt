// Laws, each the contract of a function that does nothing.
ghost use Rattle.c65_rtl_law_printf.specs.Arguments.{CharactersAreTaken, StringsAreTaken};
ghost use Rattle.c65_rtl_law_printf.specs.Digits.{DigitsAreTaken};
ghost use Rattle.c65_rtl_law_printf.specs.Format.{BytesAreRead};
ghost use Rattle.c65_rtl_law_printf.specs.Reading.{FormatsAreRead};
ghost use Rattle.c65_rtl_law_printf.specs.Widths.{WidthsAreRead};
ghost use Rattle.c65_rtl_law_printf.specs.Writing.{TextsAreWritten};

/// Wherever the lines of `printf` stand, each round of its loop over the digits of a number takes the lowest one, by a division of
/// 32 bits, and leaves the others.
pub fn digits_are_taken()
    ensures { DigitsAreTaken }
{}

/// What `printf` writes is read from its format byte by byte, each field taking its argument off the end of what is left of the
/// block.
pub fn formats_are_read()
    ensures { FormatsAreRead }
{}

/// Wherever the lines of `printf` stand, and those of what they call, they write a text whole, count its bytes, take it off the
/// stack where it lies there, and go on to the next byte of the format.
pub fn texts_are_written()
    ensures { TextsAreWritten }
{}

/// Wherever the lines of `printf` stand, they take the argument of the conversion c, and its low byte is the text.
pub fn characters_are_taken()
    ensures { CharactersAreTaken }
{}

/// Wherever the lines of `printf` stand, they take the argument of the conversion s, and measure the text that it points to.
pub fn strings_are_taken()
    ensures { StringsAreTaken }
{}

/// Wherever the lines of `printf` stand, they read the next byte of the format, and go to the end, to a field, or to write the byte.
pub fn bytes_are_read()
    ensures { BytesAreRead }
{}

/// Wherever the lines of `printf` stand, they read a digit of a width behind `%` and put it behind the one before, or go to the
/// conversion.
pub fn widths_are_read()
    ensures { WidthsAreRead }
{}
