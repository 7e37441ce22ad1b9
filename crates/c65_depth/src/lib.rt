//! Stack certificates: for each function of a program how much it and the functions that it calls take of
//! the two stacks at most, so that a program without recursion needs no premise on them.
#![tactic(auto)]

mod calls;
mod checks;
mod facts;
mod numbers;
mod program;
mod reached;
mod sizes;

pub use program::{Cert, CertRow, certify, check, unbounded};
