//! Laws of nearness for calls of routines: states that nothing behind the call tells apart lead to such states again.
#![tactic(auto)]

mod laws;

pub use laws::{library_calls_stay_near, routines_stay_near};
