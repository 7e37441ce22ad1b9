// Laws, each the contract of a function that does nothing.
ghost use Rattle.c65_rtl_law_wide.specs.Rows.{LongsAreDivided, LongsAreMultiplied, SignedLongsAreDivided};

/// Wherever the lines of `tosmuleax` and `popeax` stand under their numbers, each call of `tosmuleax` that its row admits does what
/// the row says: it comes back with the product of both numbers in 32 bits, in fewer instructions than the row costs.
pub fn longs_are_multiplied()
    ensures { LongsAreMultiplied }
{}

/// So it is with `tosudiveax` and `tosumodeax`, and the quotient and the remainder of numbers without signs. Where the divisor is
/// 0 they come back too, with what the row keeps.
pub fn longs_are_divided()
    ensures { LongsAreDivided }
{}

/// So it is with `tosdiveax` and `tosmodeax`, where the lines of `negeax` stand under its number too: the quotient is cut toward
/// zero, and the remainder has the dividend's sign.
pub fn signed_longs_are_divided()
    ensures { SignedLongsAreDivided }
{}
