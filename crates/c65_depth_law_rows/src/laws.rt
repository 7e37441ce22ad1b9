// Laws of the certificate that is made, each the contract of a function that does nothing.
ghost use Rattle.c65_depth_law_rows.specs.Rows.{NumbersAreLeast, RoundsSettle, RowsAreInOrder, RowsAreThoseReached, RowsCover};

/// Where no function is without a bound, as many rounds as there are functions settle the numbers of each function that
/// can be called from `main`: no further round changes them.
pub fn rounds_settle()
    ensures { RoundsSettle }
{}

/// A function has a row exactly where it has a body and can be called from `main`.
pub fn rows_are_those_reached()
    ensures { RowsAreThoseReached }
{}

/// The rows are in the order of their functions, one for each.
pub fn rows_are_in_order()
    ensures { RowsAreInOrder }
{}

/// The numbers of the rows are at most those of any numbers that cover the program.
pub fn numbers_are_least()
    ensures { NumbersAreLeast }
{}

/// The numbers of the rows cover the program themselves, where none stands still at the greatest that is counted.
pub fn rows_cover()
    ensures { RowsCover }
{}
