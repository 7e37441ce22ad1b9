//! Lines of directives (C90 6.8): their tokens and what cuts them off, the forms of #define, #undef, #line and the others, the
//! groups of conditions, and what may stop preprocessing.
#![tactic(auto)]

mod calls;
mod condition;
mod definition;
mod directive;
mod line;
mod marks;
mod numbering;

pub use calls::{Lexed, define, expand, intern, next_token};
pub use condition::Groups;
pub use definition::{define_line, read_only_name, undef_line};
pub use directive::{Deed, Part, Test, deed_of, head_of, part_of};
pub use line::{Cut, Line, Misfit};
pub use marks::{begins_with, is_mark, is_name, is_nothing, is_word, spelling_of};
pub use numbering::{Count, number_line};
