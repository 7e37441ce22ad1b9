//! Rewriting the lines of a function by rules: lines that stand for others, passes of one rule, and rounds of several.
#![tactic(auto)]

mod answer;
mod group;
mod labels;
mod lines;
mod once;
mod register;
mod rewrite;
mod rounds;
mod run;
mod window;

pub use answer::{Found, alone_if, gone_if, instead, lines_from, lines_of};
pub use group::{Group, run_group};
pub use labels::{
    begins_with, branch_target, chain_end, has_hop, hop, is_label, jump_target, retargeted,
    threaded,
};
pub use once::run_once;
pub use register::{Register, Transfer, loaded_by, stored_by, transfer_by};
pub use rewrite::{Pass, Rewrite};
pub use rounds::{Rules, run_flow_rule, run_jump_rule, run_rule, run_rules};
pub use run::{run_pass, run_pass_on};
pub use window::{alone, in_place, is_settled, word_loaded};
