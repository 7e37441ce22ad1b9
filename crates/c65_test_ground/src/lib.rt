//! Tests of the lowest libraries: each public call once, against values of C90, the manual of the 6502 or arithmetic.
#![tactic(auto)]

#[cfg(test)]
mod base;
#[cfg(test)]
mod ints;
#[cfg(test)]
mod io;
#[cfg(test)]
mod lex;
#[cfg(test)]
mod mach;
#[cfg(test)]
mod names;
#[cfg(test)]
mod pieces;
#[cfg(test)]
mod scan;
