// Options, and the reading of their values.
ghost use Rattle.std.specs.Prelude.{◌≡◌, ◌==◌, IsTrue, IfOk, if◌then◌else◌, nat_lt, Some, None};
ghost use Rattle.std.specs.List.{list_all, position};
ghost use Rattle.std.specs.Char.{is_ascii_digit};
ghost use Rattle.c65_driver_words.specs.Values;
ghost use Rattle.c65_driver_words.specs.Words;
ghost use Rattle.c65_driver_words.specs.Words.{flag_in, value_in, processor_in};
ghost use Rattle.c65_driver_words.specs.Borrowed.{lent};

use c65_base::{Cpu, Text};
use c65_lex::{Define, PpKind, class_of};
use std::alloc::{AllocError, Global};

/// An option without a value.
#[derive(Clone, Copy, Debug, PartialEq, Eq)]
pub enum Flag {
    RegisterVars,
    SignedChars,
    StaticLocals,
    CheckStack,
    Known,
}

/// An option with a value.
#[derive(Clone, Copy, Debug, PartialEq, Eq)]
pub enum Value {
    Define,
    Folder,
    Target,
    Processor,
    Out,
    Cycles,
}

/// The option without a value that a word is.
pub fn flag_of(word: &str) -> Option<Flag>
    ensures { result ≡ flag_in word.now }
{
    if word == "-r" || word == "--register-vars" {
        return Some(Flag::RegisterVars);
    }
    if word == "-j" || word == "--signed-chars" {
        return Some(Flag::SignedChars);
    }
    if word == "-Cl" || word == "--static-locals" {
        return Some(Flag::StaticLocals);
    }
    if word == "--check-stack" {
        return Some(Flag::CheckStack);
    }
    if word == "--known" {
        return Some(Flag::Known);
    }
    None
}

/// The option of which a word says that its value is the next word.
pub fn value_of(word: &str) -> Option<Value>
    ensures { result ≡ value_in word.now }
{
    if word == "-D" {
        return Some(Value::Define);
    }
    if word == "-I" {
        return Some(Value::Folder);
    }
    if word == "-t" {
        return Some(Value::Target);
    }
    if word == "--cpu" {
        return Some(Value::Processor);
    }
    if word == "-o" {
        return Some(Value::Out);
    }
    if word == "-x" {
        return Some(Value::Cycles);
    }
    None
}

/// The processor that a name is of.
pub fn processor(text: &[u8]) -> Option<Cpu>
    ensures { result ≡ processor_in text.now }
{
    if text == b"6502".as_slice() {
        return Some(Cpu::Nmos);
    }
    if text == b"65c02".as_slice() {
        return Some(Cpu::Cmos);
    }
    None
}

/// Whether a word may be the name of a file or folder.
pub fn is_file(word: &[u8]) -> bool
    ensures { result ≡ Values.is_file word.now }
{
    match word {
        [] => false,
        [first, ..] => *first != b'-',
    }
}

/// What stands behind the beginning of a word.
pub fn behind<'a>(beginning: &[u8], word: &'a [u8]) -> Option<&'a [u8]>
    ensures { lent result ≡ Values.behind beginning.now word.now }
{
    let Some((first, beginning)) = beginning.split_first() else {
        return Some(word);
    };
    match word.split_first() {
        Some((byte, rest)) if *byte == *first => behind(beginning, rest),
        _ => None,
    }
}

/// Whether a text may follow `-O`: any of `i`, `r` and `s`, each at most once.
pub fn are_letters(text: &[u8]) -> bool
    ensures { result ≡ Words.are_letters text.now }
{
    let Some((letter, letters)) = text.split_first() else {
        return true;
    };
    b"irs".contains(letter) && !letters.contains(letter) && are_letters(letters)
}

fn are_digits(bytes: &[u8]) -> bool
    ensures { result ≡ list_all is_ascii_digit bytes.now }
{
    bytes.iter().all(|byte| byte.is_ascii_digit())
}

/// At most so many digits.
fn is_digits(most: usize, word: &str) -> bool
    ensures { result ≡ Values.is_digits most word.now }
{
    let bytes = word.as_bytes();
    bytes.len() <= most && are_digits(bytes)
}

fn above_zero(number: u32) -> Option<u32>
    ensures { result ≡ (if nat_lt 0 number then Some number else None) }
{
    if number > 0 { Some(number) } else { None }
}

/// The number that digits write.
fn whole_by(word: &str) -> Option<u32>
    requires { IsTrue (list_all is_ascii_digit word.now) }
    ensures { result ≡ Values.whole_by word.now }
{
    match word.parse::<u32>() {
        Ok(number) => above_zero(number),
        Err(_) => None,
    }
}

/// The number that at most so many digits write.
fn whole(most: usize, word: &str) -> Option<u32>
    ensures { result ≡ Values.whole_in most word.now }
{
    if is_digits(most, word) {
        whole_by(word)
    } else {
        None
    }
}

/// The number of `-x`.
pub fn cycles(word: &str) -> Option<u32>
    ensures { result ≡ Values.cycles_in word.now }
{
    whole(10, word)
}

/// The number of `gen`.
pub fn number(word: &str) -> Option<u8>
    ensures { result ≡ Values.number_in word.now }
{
    match whole(3, word) {
        Some(number) if number < 256 => Some(number as u8),
        _ => None,
    }
}

fn is_name(word: &[u8]) -> bool
    ensures { result ≡ Values.is_name word.now }
{
    match class_of(word) {
        Some(PpKind::Name) => true,
        _ => false,
    }
}

fn has_line_feed(text: &[u8]) -> bool
    ensures { result ≡ Values.has_line_feed text.now }
{
    text.contains(&b'\n')
}

fn define_by(alloc: Global, name: &[u8], body: &[u8]) -> Result<Option<Define>, AllocError>
    ensures { IfOk result (λ define. define ≡ Values.define_by name.now body.now) }
{
    if !is_name(name) || has_line_feed(body) {
        return Ok(None);
    }
    let name = Text::copy_of(alloc, name)?;
    let body = Text::copy_of(alloc, body)?;
    Ok(Some(Define { name, body }))
}

fn equals_sign(text: &[u8]) -> Option<usize>
    ensures { result ≡ position (λ byte. byte == 61) text.now }
{
    text.iter().position(|byte| *byte == b'=')
}

/// The definition that `-D` gives: `NAME=TEXT`, or `NAME` for `NAME=1`.
pub fn define(alloc: Global, text: &[u8]) -> Result<Option<Define>, AllocError>
    ensures { IfOk result (λ define. define ≡ Values.define_in text.now) }
{
    match equals_sign(text) {
        None => define_by(alloc, text, b"1"),
        Some(at) => define_by(alloc, &text[..at], &text[at + 1..]),
    }
}
