// Laws of a yes of `check`, each the contract of a function that does nothing.
ghost use Rattle.c65_depth_law_fits.specs.Fits.{CheckIsExact, CheckedIsFitting, CheckedIsNeverDeep, FittingIsChecked};

/// After a yes each function that can be called from `main` has numbers in its first row that cover its cost, with what
/// any call passes to it, and those of the functions that it calls, none of them through a pointer; and `main` with the
/// arguments has room on both stacks.
pub fn checked_is_fitting()
    ensures { CheckedIsFitting }
{}

/// Where the numbers of a certificate cover a program of which each call names a function that there is, and `main` with
/// the arguments has room, `check` says yes.
pub fn fitting_is_checked()
    ensures { FittingIsChecked }
{}

/// Of a well typed program `check` says yes exactly where the numbers of the certificate cover it and `main` with the
/// arguments has room.
pub fn check_is_exact()
    ensures { CheckIsExact }
{}

/// After a yes no state of the program is too deep, on any input, where its arguments have no more bytes.
pub fn checked_is_never_deep()
    ensures { CheckedIsNeverDeep }
{}
