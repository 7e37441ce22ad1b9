//! What initialisers make of objects, where their values are typed already: the first bytes of an
//! object, address constants, and the parts to which values go (C90 6.4, 6.5.7).
#![tactic(auto)]

mod address;
mod cells;
mod parts;
mod sink;
mod texts;

pub use address::{Constant, constant_pointer};
pub use cells::{grow, put_bits, put_number, put_pointer};
pub use parts::{
    Part, element_part, first_pos, is_below, member_part, scalar_value, takes_whole, whole,
};
pub use sink::{Sink, begin_automatic, fault, set, store_number, store_pointer};
pub use texts::{put_text, text_for};
