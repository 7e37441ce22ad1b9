//! The code of functions as lines of instructions and calls, and the machine that gives them a meaning.
#![tactic(auto)]

mod access;
mod code;
mod effects;
mod fits;
mod gather;
mod items;
mod laws;
mod line;
mod parts;
mod routine;
mod segment;

pub use code::{Bytes, Code, DataCell, Datum, DatumKind, Literals, Symbol};
pub use fits::{has_opcode, is_segment};
pub use gather::literals;
pub use items::Items;
pub use laws::{
    calls_leave_y_open, never_sticks, operator_results, raw_states_are_bytes,
    routines_are_numbered, rows_are_the_tables, rows_leave_a_open, runs_weigh, upward_copies_go_on,
};
pub use line::{Callee, Line, Operand, Sym};
pub use parts::{Part, RegSet};
pub use routine::{Count, Routine, TosOp, UnaryRoutine, Width};
pub use segment::{Draft, Seg};
