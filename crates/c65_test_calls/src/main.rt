//! Calls public functions of libraries with made arguments, and prints their answers, which C90, the manuals or arithmetic
//! give: those of macros by the table `rows`.
//!
//! A line of the table is one of these; a backquote in a TEXT ends a line:
//!
//! - `= TEXT`: a heading
//! - `new`: no macros but those that are predefined
//! - `define TEXT`: a macro, as a directive's line has it behind its name
//! - `expand TEXT`: the expansion of a text whose lines begin with the 10th
//! - `feed TEXT`: what comes out as an expander is fed such a text
//! - `finish`: what comes out of it at the end
#![tactic(auto)]

mod expansions;
mod folding;
mod frames;
mod lines;
mod linking;
mod macros;
mod operators;
mod segments;
mod statements;
mod texts;
mod trees;

use crate::expansions::Desk;
use crate::folding::show_folding;
use crate::frames::show_frames;
use crate::lines::show_lines;
use crate::linking::show_links;
use crate::macros::show_macros;
use crate::operators::show_operators;
use crate::segments::show_segments;
use crate::statements::show_places;
use crate::texts::text_of;
use crate::trees::show_depths;
use c65_base::Refusal;
use std::fs;

/// Prints the answer of a line, if it has one.
fn show(
    rt: &HostRuntime,
    line: &str,
    answer: Result<Option<Vec<u8>>, Refusal>,
) -> Result<(), anyhow::Error> {
    match answer {
        Ok(None) => {}
        Ok(Some(bytes)) => {
            println!(rt; "{line}\n  {}", text_of(rt.alloc(), &bytes)?)?;
        }
        Err(refusal) => println!(rt; "{line}\n  {refusal}")?,
    }
    Ok(())
}

fn show_expansions(rt: &HostRuntime) -> Result<(), anyhow::Error> {
    let rows = fs::read_to_string(rt, "rows")?;
    let mut desk = Desk::new(rt.alloc())?;
    for line in rows.lines() {
        let (name, text) = line.split_once(' ').unwrap_or((line, ""));
        if name == "=" {
            println!(rt; "{line}")?;
        } else {
            show(rt, line, desk.perform(rt.alloc(), name, text))?;
        }
    }
    Ok(())
}

fn main(rt: HostRuntime) -> Result<(), anyhow::Error> {
    show_expansions(&rt)?;
    show_macros(&rt)?;
    show_folding(&rt)?;
    show_frames(&rt)?;
    show_lines(&rt)?;
    show_segments(&rt)?;
    show_links(&rt)?;
    show_operators(&rt)?;
    show_places(&rt)?;
    show_depths(&rt)
}
