//! Files of a unit: #include lines, the paths of a search, the reading of files, and the headers that are built in (C90 6.8.2).
#![tactic(auto)]

mod files;
mod headers;
mod include;

pub use files::{Found, begin_main, seek};
pub use headers::{BuiltIn, Included};
pub use include::{Header, include_line};
