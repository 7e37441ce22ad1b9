//! Operators, comparisons, tests and stores whose operand is read where it lies, in place of one that waits on
//! the software stack.
#![tactic(auto, using(c65_genwide::proofs::Kept::kept_then, c65_genwide::proofs::Kept::kept_last))]

mod bytes;
mod compare;
mod direct;
mod pointed;
mod relation;
mod through;
mod truth;
mod words;

pub use bytes::{OperandByte, put_op};
pub use compare::{Sides, put_compare, put_compare_byte};
pub use direct::{Direct, byte_of, converted};
pub use pointed::{put_behind_pointer, put_pointed_sum, put_pointer};
pub use relation::{Relation, relation_of};
pub use through::{Stored, put_byte_through, put_read_bytes, put_word_through};
pub use truth::{put_truth, put_zero_test};
pub use words::{put_add_number, put_long_mask, put_sum, put_taken_from, put_word};
