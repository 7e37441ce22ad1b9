// Laws, each the contract of a function that does nothing.
ghost use Rattle.c65_rtl_law_strings.specs.Rows.{StringsAreCompared, StringsAreMeasured, StringsAreMeasuredWithin};

/// Wherever the lines of `strlen` stand under its number, each call that its row admits does what the row says: it comes back
/// with the number of bytes before the zero, in fewer instructions than the row costs.
pub fn strings_are_measured()
    ensures { StringsAreMeasured }
{}

/// So it is with `strcmp`: it comes back with the difference of the first bytes that are unlike, or of the zeros.
pub fn strings_are_compared()
    ensures { StringsAreCompared }
{}

/// A call of `strlen` within another routine does so too, within whatever bounds leave its return point: it pushes nothing.
pub fn strings_are_measured_within()
    ensures { StringsAreMeasuredWithin }
{}
