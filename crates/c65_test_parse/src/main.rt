//! Reads each line of the table `rows` by the parser, and prints what it answers.
//!
//! A line is one of these. A TEXT is words between spaces, each a token on a line of its own: keywords, punctuators, `1`,
//! and names of one letter.
//!
//! - `expr TEXT`, `declarator TEXT`, `specifiers TEXT`, `type TEXT`: the tree at the front, where `T` is a type
//! - `unit TEXT`: a unit
//! - `items TEXT`: a unit, of which is printed what it has
//! - `nest PART N TEXT`: one of the first five, N levels deep, whose text is
//!   `BEFORE | OPEN | MIDDLE | CLOSE | BEHIND` with the second and the fourth N times
#![tactic(auto)]

mod parts;
mod words;

use crate::parts::{Part, read};
use crate::words::{nested, tokens};
use c65_base::{Code, Refusal, Size};
use c65_decl::parse_unit;
use c65_scan::Token;
use c65_test_words::{first_word, number};
use c65_tree::{Function, Item, StmtKind};
use std::fs;

fn show_refusal(rt: &HostRuntime, refusal: &Refusal) -> Result<(), anyhow::Error> {
    match refusal {
        Refusal::At {
            code: Code::Syntax,
            pos,
        } => println!(rt; "Syntax at {}", pos.line)?,
        Refusal::At {
            code: Code::Assembly,
            pos,
        } => println!(rt; "Assembly at {}", pos.line)?,
        Refusal::TooLarge {
            limit: Size::Depth,
            value: 257,
        } => println!(rt; "too deep")?,
        _ => println!(rt; "another refusal")?,
    }
    Ok(())
}

fn show_part(rt: &HostRuntime, part: Part, tokens: &[Token]) -> Result<(), anyhow::Error> {
    match read(rt.alloc(), part, tokens) {
        Ok((root, next)) => println!(rt; "{root}, then {next}")?,
        Err(refusal) => show_refusal(rt, &refusal)?,
    }
    Ok(())
}

/// Whether it is read, or how it is refused.
fn show_end(rt: &HostRuntime, part: Option<Part>, tokens: &[Token]) -> Result<(), anyhow::Error> {
    let answer = match part {
        Some(part) => read(rt.alloc(), part, tokens).err(),
        None => parse_unit(rt.alloc(), tokens).err(),
    };
    match answer {
        None => println!(rt; "read")?,
        Some(refusal) => show_refusal(rt, &refusal)?,
    }
    Ok(())
}

fn show_function(rt: &HostRuntime, function: &Function) -> Result<(), anyhow::Error> {
    match &function.body.kind {
        StmtKind::Block(decls, stmts) => {
            print!(rt; "definition {} {}", decls.len(), stmts.len())?
        }
        _ => print!(rt; "definition")?,
    }
    Ok(())
}

fn show_items(rt: &HostRuntime, items: &[Item]) -> Result<(), anyhow::Error> {
    for (place, item) in items.iter().enumerate() {
        if place > 0 {
            print!(rt; ", ")?;
        }
        match item {
            Item::Decl(_) => print!(rt; "declaration")?,
            Item::Function(function) => show_function(rt, function)?,
        }
    }
    println!(rt)?;
    Ok(())
}

fn show_unit(rt: &HostRuntime, tokens: &[Token]) -> Result<(), anyhow::Error> {
    match parse_unit(rt.alloc(), tokens) {
        Ok(unit) => show_items(rt, &unit.items),
        Err(refusal) => show_refusal(rt, &refusal),
    }
}

/// A part that nests.
fn show_nest(rt: &HostRuntime, rest: &str) -> Result<(), anyhow::Error> {
    let (name, rest) = first_word(rest);
    let (times, text) = first_word(rest);
    let tokens = nested(rt.alloc(), text, number(times))?;
    show_end(rt, Part::named(name), &tokens)
}

/// Does a line of the table.
fn line(rt: &HostRuntime, text: &str) -> Result<(), anyhow::Error> {
    let (name, rest) = first_word(text);
    if name == "#" {
        return Ok(());
    }
    print!(rt; "{text}: ")?;
    if name == "nest" {
        return show_nest(rt, rest);
    }
    let tokens = tokens(rt.alloc(), rest)?;
    match Part::named(name) {
        Some(part) => show_part(rt, part, &tokens),
        None => {
            if name == "items" {
                show_unit(rt, &tokens)
            } else {
                show_end(rt, None, &tokens)
            }
        }
    }
}

fn main(rt: HostRuntime) -> Result<(), anyhow::Error> {
    let rows = fs::read_to_string(&rt, "rows")?;
    for text in rows.lines() {
        line(&rt, text)?;
    }
    Ok(())
}
