//! Tests of the assembly text: codes written and read back, and texts that are refused, each at its line.
#![tactic(auto)]

#[cfg(test)]
mod notes;
#[cfg(test)]
mod texts;
