//! Laws of the whole optimiser: the code that it makes of another one follows that one, names nothing that that one does not
//! name, and is closed where that one is. The statements stand in specs/; each is the contract of a function that does nothing.
#![tactic(auto)]

mod laws;

pub use laws::{
    optimised_is_closed, optimised_is_followed, optimised_names_nothing, rewrites_are_followed,
    walks_are_followed,
};
