//! Laws of nearness: states that nothing behind a line tells apart lead to such states again. The statements stand in specs/; each is
//! the contract of a function that does nothing.
#![tactic(auto)]

mod laws;

pub use laws::{calm_stays, operations_stay_near, operations_stay_steady};
