//! Laws of parsing: what the parser's machine and the grammar say alike of words, levels, operators and names.
#![tactic(auto)]
