//! Frames: where the parameters and automatic objects of a function stand, and what its entry and
//! its end do about them.
#![tactic(auto)]

mod arrive;
mod body;
mod check;
mod frame;
mod home;
mod mark;
mod modes;
mod passing;
mod place;
mod sizes;
mod symbols;

pub use frame::Frame;
pub use home::{Arrival, Home, Moved};
pub use modes::Modes;
pub use passing::registers;
pub use sizes::bytes_or;
pub use symbols::Numbers;
