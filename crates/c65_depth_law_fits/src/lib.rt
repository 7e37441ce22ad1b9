//! Laws of `check`: it says yes exactly where the numbers of the certificate cover the program and `main` has room, and
//! then no state of its meaning is too deep.
#![tactic(auto)]

mod laws;

pub use laws::{check_is_exact, checked_is_fitting, checked_is_never_deep, fitting_is_checked};
