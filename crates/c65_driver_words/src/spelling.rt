// The words one after another.
ghost use Rattle.std.specs.Prelude.{◌≡◌, ◌≤◌, ◌<◌, ◌+◌, ◌&&◌, not, [], length, map, drop, string_bytes, bytes_eq, codes, is_some};
ghost use Rattle.c65_driver_words.specs.Words.{kind_in, args_from, given_at, ended_at, words_from, nothing_told, spelling_of, Spells};

use crate::command::{Command, CommandKind};
use crate::told::Told;
use c65_base::{Refusal, Text};
use std::alloc::Global;

fn kind_of(word: &str) -> Option<CommandKind>
    ensures { result ≡ kind_in word.now }
{
    if word == "go" {
        return Some(CommandKind::Go);
    }
    if word == "build" {
        return Some(CommandKind::Build);
    }
    if word == "run" {
        return Some(CommandKind::Run);
    }
    if word == "text" {
        return Some(CommandKind::Text);
    }
    if word == "gen" {
        return Some(CommandKind::Gen);
    }
    if word == "depth" {
        return Some(CommandKind::Depth);
    }
    None
}

fn no_command(at: usize) -> Refusal
    ensures { result ≡ Refusal.Usage at }
{
    Refusal::Usage { word: at as u64 }
}

/// The command whose arguments are the words from this number on. None of them holds a zero byte.
fn with_args(alloc: Global, told: Told, words: &[String], first: usize) -> Result<Command, Refusal>
    requires { first ≤ length words.now }
    ensures { Spells (args_from first told [] (drop first (map string_bytes words.now))) result }
{
    let mut args = Vec::new(alloc);
    let mut at = first;
    while at < words.len() {
        let word = words[at].as_str().as_bytes();
        if word.contains(&0) {
            return Err(no_command(at));
        }
        args.push(Text::copy_of(alloc, word)?)?;
        at += 1;
    }
    Ok(told.with_args(args))
}

/// The command of words in which this number is `--`.
fn given(alloc: Global, told: Told, words: &[String], at: usize) -> Result<Command, Refusal>
    requires { at < length words.now }
    ensures { Spells (given_at at told (drop (at + 1) (map string_bytes words.now))) result }
{
    if told.takes_args() {
        with_args(alloc, told, words, at + 1)
    } else {
        Err(no_command(at))
    }
}

/// The command of words that end here.
fn ended(alloc: Global, told: Told, at: usize) -> Result<Command, Refusal>
    ensures { Spells (ended_at at told) result }
{
    if told.is_whole() {
        Ok(told.with_args(Vec::new(alloc)))
    } else {
        Err(no_command(at))
    }
}

/// Whether this word ends the options, and arguments follow.
fn begins_args(told: &Told, word: &str) -> bool
    ensures { result ≡ (bytes_eq word.now (codes "--") && not (is_some told.now.waits)) }
{
    word == "--" && !told.waits()
}

/// The command of words behind the first.
fn spell_rest(alloc: Global, kind: CommandKind, words: &[String]) -> Result<Command, Refusal>
    requires { 1 ≤ length words.now }
    ensures { Spells (words_from 1 (nothing_told kind) (drop 1 (map string_bytes words.now))) result }
{
    let mut told = Told::new(alloc, kind);
    let mut at = 1;
    while at < words.len() {
        let word = words[at].as_str();
        if begins_args(&told, word) {
            return given(alloc, told, words, at);
        }
        let goes_on = told.take(word)?;
        if goes_on {
            at += 1;
        } else {
            return Err(no_command(at));
        }
    }
    ended(alloc, told, at)
}

/// The command that the words behind the program's name spell. `Usage` comes exactly where they spell none, with the
/// number of the first word at which no command continues, counted from 0.
pub fn spell(alloc: Global, words: &[String]) -> Result<Command, Refusal>
    ensures { Spells (spelling_of (map string_bytes words.now)) result }
{
    let Some(first) = words.first() else {
        return Err(no_command(0));
    };
    match kind_of(first.as_str()) {
        Some(kind) => spell_rest(alloc, kind, words),
        None => Err(no_command(0)),
    }
}
