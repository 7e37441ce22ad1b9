//! Declarations, statements and units of C90 (6.5 to 6.7), from tokens to trees.
//!
//! Expressions, specifiers and declarators are read by `c65_parse`. What is open of initialisers and
//! of statements stands on stacks of frames, so that nothing that nests uses the host's stack.
#![tactic(auto)]

mod declaration;
mod enumerators;
mod expression;
mod function;
mod here;
mod initialiser;
mod names;
mod opening;
mod statement;
mod trees;
mod unit;
mod words;

pub use unit::parse_unit;
