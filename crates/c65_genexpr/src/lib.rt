//! Expressions as lines of code, over the frame of their function.
#![tactic(auto, using(c65_genwide::proofs::Kept::kept_then, c65_genwide::proofs::Kept::kept_last))]

mod arguments;
mod calls;
mod comparing;
mod constants;
mod destination;
mod direct;
mod elements;
mod expr;
mod fields;
mod held;
mod leaving;
mod light;
mod operands;
mod operating;
mod places;
mod spills;
mod steps;
mod storing;
mod types;
mod value;
mod wanted;

pub use c65_genframe::{Frame, Home};
pub use constants::{constant_in, residue_of};
pub use destination::Destination;
pub use direct::{direct_of, is_pure};
pub use elements::{Element, byte_in, doublings, element_at, put_scaled};
pub use expr::{put_base, put_expr, put_index, put_low, put_test};
pub use held::{PTR2, put_keep};
pub use leaving::{leave_out, leave_sum};
pub use light::{is_light, is_light_index};
pub use operands::{Operands, computes};
pub use operating::{Form, constant_right, put_form};
pub use places::{more, place_of};
pub use steps::{amount_of, put_step};
pub use types::{access_of, target_bytes};
pub use value::gen_expr;
pub use wanted::Wanted;
