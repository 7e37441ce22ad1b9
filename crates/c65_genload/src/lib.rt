//! The lines that load, store, convert and add: what expressions are made of, beside operators and
//! calls.
#![tactic(auto, using(c65_genwide::proofs::Kept::kept_then, c65_genwide::proofs::Kept::kept_last))]

mod address;
mod conversions;
mod fields;
mod loads;
mod numbers;
mod places;
mod stores;
mod times;
pub mod zero_page;

pub use address::{put_address, put_offset, put_raised, put_symbol};
pub use conversions::{bytes_of, convert, push, test, waiting};
pub use fields::{extract, in_field, is_astride, is_in_byte, is_unit, others, own_bits, put_up};
pub use loads::{hold, load, load_bytes};
pub use numbers::{add, divide, first, fourth, mask, number, scale, second, third};
pub use places::{
    Access, Extent, Field, Place, extent_by, extent_of, held, onward, settled, value_type,
};
pub use stores::{copy, merge, set_in_unit, store, store_bits, store_bytes};
pub use times::{put_times, shift_a};
