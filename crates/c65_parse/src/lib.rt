//! Expressions, type names, specifiers and declarators of C90, from tokens to trees.
//!
//! One machine reads them all, one token a step: what is open stands on a stack of frames, so that
//! nothing that nests uses the host's stack, and each frame counts one level of depth.
#![tactic(auto)]

mod declarators;
mod frame;
mod operands;
mod parser;
mod specifiers;
mod state;
mod step;

pub use parser::{
    parse_assignment, parse_assignment_within, parse_constant, parse_declarator, parse_expr,
    parse_specifiers, parse_type_name, parse_untyped_declarator,
};
pub use state::{DEPTH, Parser};
