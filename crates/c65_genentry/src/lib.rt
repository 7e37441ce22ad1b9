//! Lines that functions and statements need beside their expressions: entry and end of a function,
//! blocks of bytes that are cleared or copied, and the choice of a case.
#![tactic(auto, using(c65_genwide::proofs::Kept::kept_then, c65_genwide::proofs::Kept::kept_last, crate::proofs::Kept::code_then, crate::proofs::Kept::labels_then, crate::proofs::Kept::code_last))]

mod bytes;
mod choice;
mod drafts;
mod ends;
mod entry;
mod places;
mod pointers;
mod stack;

pub use bytes::{clear_bytes, copy_bytes};
pub use choice::choose;
pub use drafts::{fresh, label, reserve};
pub use ends::put_end;
pub use entry::put_entry;
pub use pointers::{clear_bank, point_near, point_symbol, store_far};
