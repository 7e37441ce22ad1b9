//! The tokens of a unit: each preprocessing token's class and value (C90 6.1).
#![tactic(auto)]

mod chars;
mod digits;
mod float;
mod number;
mod scanner;
mod token;
mod value;
mod words;

pub use c65_base::Text as Bytes;
pub use scanner::scan;
pub use token::{Keyword, Punct, Token, TokenKind, Tokens};
