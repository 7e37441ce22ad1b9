//! Laws of the functions that calls lead to: which can be called from `main`, and which lie on a call cycle.
#![tactic(auto)]

mod laws;

pub use laws::{cycles_lead_back, none_where_unbounded, reached_is_reachable, unbounded_is_first};
