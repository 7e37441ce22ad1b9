//! Does the commands of the table `rows`, over files in memory, and prints what each writes and its status.
//!
//! A line of the table is one of these; a TEXT may have `\n`, `\\` and `\xHH` in it:
//!
//! - `new N`: no files; the call with number N that reads or writes one will fail, and none if it is 0
//! - `file PATH TEXT`, `more PATH N TEXT`: the text stands behind what the file has, once or N times
//! - `input TEXT`, `in N`, `out N`, `err N`: the input of later commands, and the call of the input, of the output or of the
//!   errors that fails
//! - `pieces N`, `shrinks N`: a read of a file gives at most N bytes; of each file N bytes are left once its first read is done
//! - `do WORDS`: the command
//! - `end WORDS`: the command, of which the status alone is printed
//! - `twice WORDS`: the command, two times: whether both wrote the same, and the words but for those behind `image` and
//!   `instructions`, which are those of the code that is made
//! - `has PATH TEXT`: whether the file has the text in it
//! - `cut PATH WORDS`: the command for each beginning of the file in its place, where no other file is
//! - `begin PATH N WORDS`: the same for the beginnings of less than N bytes
//! - `rest PATH N WORDS`: the same for those of N bytes and more, of which is printed only that each command returned
#![tactic(auto)]

mod desk;
mod device;

use crate::desk::{Desk, Left, perform, perform_with};
use c65_base::Refusal;
use c65_io::{HostSink, write_all};
use c65_test_words::{first_word, has_part, number, unescaped};
use std::alloc::Global;
use std::fs;

/// Does a line that says what commands are given.
fn prepare(alloc: Global, desk: &mut Desk, name: &str, rest: &str) -> Result<(), Refusal> {
    match name {
        "new" => *desk = Desk::new(alloc, number(rest))?,
        "file" => {
            let (path, text) = first_word(rest);
            desk.add(alloc, path, 1, &unescaped(alloc, text)?)?;
        }
        "more" => {
            let (path, text) = first_word(rest);
            let (count, text) = first_word(text);
            desk.add(alloc, path, number(count), &unescaped(alloc, text)?)?;
        }
        "input" => desk.input = unescaped(alloc, rest)?,
        "in" => desk.fail_in = number(rest),
        "out" => desk.fail_out = number(rest),
        "err" => desk.fail_err = number(rest),
        "pieces" => desk.device.piece = usize::try_from(number(rest)).unwrap_or(usize::MAX),
        "shrinks" => desk.device.left = number(rest),
        _ => {}
    }
    Ok(())
}

/// The answer of `has`.
fn holds(alloc: Global, desk: &Desk, rest: &str) -> Result<&'static str, Refusal> {
    let (path, text) = first_word(rest);
    let part = unescaped(alloc, text)?;
    Ok(match desk.device.files.get(path.as_bytes()) {
        None => "no file",
        Some(bytes) => { if has_part(bytes, &part) { "yes" } else { "no" } }
    })
}

/// Prints what a command left.
fn show(rt: &HostRuntime, left: &Left) -> Result<(), anyhow::Error> {
    let mut console = HostSink::new(rt.stdout());
    let _ = write_all(&mut console, left.out.written());
    let _ = write_all(&mut console, left.err.written());
    println!(rt; "status {}", left.status)?;
    Ok(())
}

/// The words of a text but for those behind `image` and `instructions`.
fn show_words(rt: &HostRuntime, text: &str) -> Result<(), anyhow::Error> {
    let mut is_made = false;
    for word in text.split_whitespace() {
        if !is_made {
            print!(rt; " {word}")?;
        }
        is_made = word == "image" || word == "instructions";
    }
    println!(rt; "")?;
    Ok(())
}

fn show_twice(
    rt: &HostRuntime,
    desk: &mut Desk,
    text: &str,
    words: &str,
) -> Result<(), anyhow::Error> {
    let first = perform(rt.alloc(), desk, words)?;
    let second = perform(rt.alloc(), desk, words)?;
    let are_alike = first.out.written() == second.out.written() && first.status == second.status;
    print!(rt;
        "{text}, {}:",
        if are_alike { "alike" } else { "not alike" }
    )?;
    show_words(rt, str::from_utf8(first.out.written()).unwrap_or(""))?;
    println!(rt; "status {}", first.status)?;
    Ok(())
}

/// Does the command for each beginning of the file that has less than so many bytes.
fn show_cuts(
    rt: &HostRuntime,
    desk: &Desk,
    path: &str,
    most: usize,
    words: &str,
) -> Result<(), anyhow::Error> {
    let bytes = desk.held(path);
    for length in 0..bytes.len().min(most) {
        let left = perform_with(rt.alloc(), path, &bytes[..length], words)?;
        show(rt, &left)?;
    }
    Ok(())
}

/// Does the command for each beginning of the file that has at least so many bytes.
fn try_rest(
    rt: &HostRuntime,
    desk: &Desk,
    path: &str,
    least: usize,
    words: &str,
) -> Result<(), anyhow::Error> {
    let bytes = desk.held(path);
    for length in least..bytes.len() {
        let _ = perform_with(rt.alloc(), path, &bytes[..length], words)?;
    }
    println!(rt; "each returned")?;
    Ok(())
}

/// A path, a number of bytes and the words of a command.
fn limited(rest: &str) -> (&str, usize, &str) {
    let (path, rest) = first_word(rest);
    let (count, words) = first_word(rest);
    (
        path,
        usize::try_from(number(count)).unwrap_or(usize::MAX),
        words,
    )
}

/// Does a line of the table.
fn line(rt: &HostRuntime, desk: &mut Desk, text: &str) -> Result<(), anyhow::Error> {
    let (name, rest) = first_word(text);
    match name {
        "do" => {
            println!(rt; "{text}")?;
            let left = perform(rt.alloc(), desk, rest)?;
            show(rt, &left)
        }
        "end" => {
            let left = perform(rt.alloc(), desk, rest)?;
            println!(rt; "{text}")?;
            println!(rt; "status {}", left.status)?;
            Ok(())
        }
        "twice" => show_twice(rt, desk, text, rest),
        "has" => {
            println!(rt; "{text}: {}", holds(rt.alloc(), desk, rest)?)?;
            Ok(())
        }
        "cut" => {
            let (path, words) = first_word(rest);
            show_cuts(rt, desk, path, usize::MAX, words)
        }
        "begin" => {
            let (path, most, words) = limited(rest);
            show_cuts(rt, desk, path, most, words)
        }
        "rest" => {
            let (path, least, words) = limited(rest);
            println!(rt; "{text}")?;
            try_rest(rt, desk, path, least, words)
        }
        _ => Ok(prepare(rt.alloc(), desk, name, rest)?),
    }
}

fn main(rt: HostRuntime) -> Result<(), anyhow::Error> {
    let rows = fs::read_to_string(&rt, "rows")?;
    let mut desk = Desk::new(rt.alloc(), 0)?;
    for text in rows.lines() {
        line(&rt, &mut desk, text)?;
    }
    Ok(())
}
