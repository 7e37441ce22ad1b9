//! How a run ends.

use crate::action::Action;

/// How the run of a sample ends.
#[derive(Clone, Copy, PartialEq, Eq, Debug)]
pub enum Ending {
    /// With this status.
    Status(u8),
    /// At an undefined action.
    Undefined(Action),
    /// At a call for which the stacks have no room.
    TooDeep,
}
