// Laws of numbers and words, each the contract of a function that does nothing.
ghost use Rattle.c65_agree_numbers.specs.Laws.{NumbersAreLaid, NumbersAreLoaded, OperatorsAreOnWords, OppositesAreOnWords, ShiftsAreOnWords, TruthIsOfWords, WordsAreConverted, WordsAreWrapped, WordsInRangeStay};

/// A word is brought into the range of its type as the number is.
pub fn words_are_wrapped()
    ensures { WordsAreWrapped }
{}

/// The word of a number that lies in the range stays.
pub fn words_in_range_stay()
    ensures { WordsInRangeStay }
{}

/// The word of a number that is converted is the converted word.
pub fn words_are_converted()
    ensures { WordsAreConverted }
{}

/// A routine of two operands gives the word of what the operator gives.
pub fn operators_are_on_words()
    ensures { OperatorsAreOnWords }
{}

/// A shift by a count gives the word of the shifted number.
pub fn shifts_are_on_words()
    ensures { ShiftsAreOnWords }
{}

/// A word is negated and complemented as its number is.
pub fn opposites_are_on_words()
    ensures { OppositesAreOnWords }
{}

/// A number is true where its word is not 0.
pub fn truth_is_of_words()
    ensures { TruthIsOfWords }
{}

/// The bytes of a number's word may be laid down as its cells.
pub fn numbers_are_laid()
    ensures { NumbersAreLaid }
{}

/// The number that cells hold has the word of the bytes there.
pub fn numbers_are_loaded()
    ensures { NumbersAreLoaded }
{}
