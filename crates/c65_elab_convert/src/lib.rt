//! Conversions and operators of C: what each operator makes of typed operands, or its first fault
//! (C90 6.2, 6.3). The trees are not folded.
#![tactic(auto)]

mod access;
mod binaries;
mod calls;
mod casts;
mod changes;
mod choices;
mod classes;
mod constness;
mod logic;
mod numbers;
mod pairs;
mod pointers;
mod structures;
mod unaries;
mod values;
mod waiting;

pub use access::{index, member, size_of_expr, size_of_type};
pub use binaries::binary;
pub use calls::call;
pub use casts::cast;
pub use changes::{assign, assign_op, assigned, step};
pub use choices::choice;
pub use classes::{Category, classify, is_bit_field, is_lvalue, is_spilled};
pub use constness::is_modifiable;
pub use logic::{both, comma, condition, either, switch_value};
pub use pointers::is_null;
pub use structures::{packed, packed_in, structure_size};
pub use unaries::{address, deref, unary};
pub use values::{as_int, as_plain, common, place_promotion, promotion, value};
pub use waiting::beside;
