//! What specifiers and declarators make, step by step, where their expressions are typed already:
//! keywords, tags, the parts of declarators and parameters (C90 6.5).
#![tactic(auto)]

mod calling;
mod constants;
mod draft;
mod heading;
mod params;
mod parts;
mod qualify;
mod shape;
mod tags;
mod words;

pub use calling::name_place;
pub use constants::{array_count, enumerator_value, field};
pub use draft::Draft;
pub use heading::{Enumerator, Heading, heading_of};
pub use params::{formal, more_bytes, param_storage, without_void};
pub use parts::{Formal, Formals, Part, Role, fault, with_part};
pub use shape::{shaped, shaped_for};
pub use tags::{begin_enumeration, begun_tag, is_signed, named_enumeration, named_tag, tag_type};
pub use words::{Base, Keyword, Words};
