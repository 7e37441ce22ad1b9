//! Types of C: trees of types, the tags of a unit or a program with their layouts, sizes,
//! compatibility and composite types (C90 6.1.2.5, 6.1.2.6, 6.5.2 to 6.5.4).
#![tactic(auto)]

mod agree;
mod compat;
mod composite;
mod copy;
mod depth;
mod layout;
mod place;
mod raise;
mod sizes;
mod table;
mod types;

pub use table::Types;
pub use types::{CType, Field, FnType, Layout, Member, QType, Tag, TagTable};
