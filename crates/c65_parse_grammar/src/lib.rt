//! The grammar of C90 6.3 to 6.7: which tokens a tree has, and the scope behind them.
#![tactic(auto)]
