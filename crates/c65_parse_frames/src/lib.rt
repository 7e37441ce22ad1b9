//! Statements and initialisers that are being read (C90 6.5.7, 6.6): what a token is to them, what
//! is open, and how a part that ends is put into its place. No token is read here.
#![tactic(auto)]

mod frame;
mod list;
mod sign;

pub use frame::{
    Begun, Frame, Head, Place, Plugged, Reached, block_of, complete, enter, place_in,
    with_declaration, with_statement,
};
pub use list::{InitList, Listed, enter_list, with_initialiser};
pub use sign::{Mark, Sign, is_label, is_mark, least_depth, sign_of, starts_declaration};
