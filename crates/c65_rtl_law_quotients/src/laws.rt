// Laws, each the contract of a function that does nothing.
ghost use Rattle.c65_rtl_law_quotients.specs.Rows.{SignedWordsAreDivided, WordsAreDivided};

/// Wherever the lines of `tosudivax` or `tosumodax` and those of the routines that they call stand under their numbers, each call
/// that the row admits does what the row says: it comes back with the quotient or the remainder of the words without signs, in
/// fewer instructions than the row costs. Where the divisor is 0 it comes back too, with what the row keeps.
pub fn words_are_divided()
    ensures { WordsAreDivided }
{}

/// So it is with `tosdivax` and `tosmodax`: the quotient is cut toward zero, and the remainder has the dividend's sign.
pub fn signed_words_are_divided()
    ensures { SignedWordsAreDivided }
{}
