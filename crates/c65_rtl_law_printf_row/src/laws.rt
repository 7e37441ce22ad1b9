// Laws, each the contract of a function that does nothing.
ghost use Rattle.c65_rtl_law_printf_row.specs.Row.{FormatsAreWritten};

/// Wherever the lines of `printf` stand, and those of what they call, each call that its row admits writes what the format says,
/// takes the arguments off, and gives the number of bytes written.
pub fn formats_are_written()
    ensures { FormatsAreWritten }
{}
