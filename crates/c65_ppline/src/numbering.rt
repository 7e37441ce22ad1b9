// Lines of #line (C90 6.8.4).
ghost use Rattle.std.specs.Prelude.{◌≡◌, ◌≤◌, ◌<◌, ◌≤ℤ◌, pos, negsuc, IfErr, IfOk, IfSome};
ghost use Rattle.c65_ppline.specs.Causes.{Stops};
ghost use Rattle.c65_ppline.specs.Expansions.{ReadsExpansion};
ghost use Rattle.c65_ppline.specs.NumberLines.{IsNumbered};
ghost use Rattle.c65_ppline.specs.Lines;
ghost use Rattle.c65_ppline.specs.Lines.{on_line};
ghost use Rattle.c65_ppline.specs.Misfits.{IsMisfit, Reads};
ghost use Rattle.c65_ppline.specs.NumberLines;
ghost use Rattle.c65_ppline.specs.NumberLines.{digits, in_range, named, numbers};

use crate::calls::expand;
use crate::line::{Line, Misfit};
use crate::marks::{begins_with, is_nothing, spelling_of};
use c65_base::{Name, Names, Refusal};
use c65_lex::{PpKind, PpToken};
use c65_macro::Macros;

/// How the lines of a file are counted: line `real` as line `given`, and those behind it in their order.
#[derive(Clone, Copy)]
pub struct Count {
    pub given: u16,
    pub real: u32,
}

impl Count {
    /// Each line by its own number.
    pub fn own() -> Count
        ensures { result ≡ NumberLines.own_count }
    {
        Count { given: 0, real: 0 }
    }

    /// What is added to a line's own number.
    pub fn offset(self) -> i64
        ensures low { negsuc 4294967294 ≤ℤ result }
        ensures high { result ≤ℤ pos 4294967295 }
        ensures exact { result ≡ NumberLines.offset self }
    {
        i64::from(self.given) - i64::from(self.real)
    }
}

/// The value of decimal digits, up to 32,768.
fn read_digits(spelling: &[u8]) -> Option<u16>
    ensures few { IfSome result (λ n. n ≤ 32768) }
    ensures value { result ≡ digits 0 spelling.now }
{
    let mut value: u32 = 0;
    for byte in spelling {
        if !byte.is_ascii_digit() {
            return None;
        }
        value = (value * 10 + u32::from(*byte - b'0')).min(32_768);
    }
    Some(value as u16)
}

/// A number from 1 to 32,767.
fn in_range(number: Option<u16>) -> Result<u16, Misfit>
    ensures refused { IfErr result IsMisfit }
    ensures some { IfOk result (λ n. 0 < n) }
    ensures number { Reads (λ n. n) result (NumberLines.in_range number) }
{
    match number {
        Some(number) if number > 0 && number < 32_768 => Ok(number),
        _ => Err(Misfit::Wrong),
    }
}

/// The number of a token, from 1 to 32,767.
fn read_number(names: &Names, token: &PpToken) -> Result<u16, Misfit>
    ensures refused { IfErr result IsMisfit }
    ensures some { IfOk result (λ n. 0 < n) }
    ensures number { Reads (λ n. n) result (NumberLines.number names.now token.now) }
{
    match token.kind {
        PpKind::Number => in_range(read_digits(spelling_of(names, token.spelling))),
        _ => Err(Misfit::Wrong),
    }
}

/// The file's name of a token, a string literal without a prefix.
fn read_file(names: &Names, token: &PpToken) -> Result<Name, Misfit>
    ensures refused { IfErr result IsMisfit }
    ensures name { Reads (λ n. n) result (NumberLines.file names.now token.now) }
{
    match token.kind {
        PpKind::Text if begins_with(b'"', spelling_of(names, token.spelling)) => Ok(token.spelling),
        _ => Err(Misfit::Wrong),
    }
}

/// The number that the line of a #line directive has itself by it, and the file's name where one is given.
#[derive(Clone, Copy)]
pub struct Given {
    pub number: u16,
    pub file: Option<Name>,
}

/// A number, and a file's name where tokens follow.
fn read_named(names: &Names, number: u16, tokens: &[PpToken]) -> Result<Given, Misfit>
    requires { 0 < number }
    ensures refused { IfErr result IsMisfit }
    ensures given { Reads (λ g. g) result (named names.now number tokens.now) }
{
    let number = number - 1;
    let Some((first, rest)) = tokens.split_first() else {
        return Ok(Given { number, file: None });
    };
    match read_file(names, first) {
        Ok(file) if is_nothing(rest) => Ok(Given {
            number,
            file: Some(file),
        }),
        Ok(_) => Err(Misfit::Wrong),
        Err(misfit) => Err(misfit),
    }
}

fn read_given(names: &Names, tokens: &[PpToken]) -> Result<Given, Misfit>
    ensures refused { IfErr result IsMisfit }
    ensures given { Reads (λ g. g) result (numbers names.now tokens.now) }
{
    let Some((first, rest)) = tokens.split_first() else {
        return Err(Misfit::Short);
    };
    match read_number(names, first) {
        Ok(number) => read_named(names, number, rest),
        Err(misfit) => Err(misfit),
    }
}

/// What a #line line with its end gives.
fn read_expanded(macros: &Macros, names: &mut Names, line: &Line) -> Result<Given, Refusal>
    ensures stops { IfErr result Stops }
    ensures exact { ReadsExpansion (λ g. g) (λ now ts. on_line line.now.hash line.now.cut (numbers now ts)) macros.now names.old (Lines.rest line.now) names.new result }
{
    match expand(macros, line.rest(), names) {
        Ok(expanded) => line.answer(read_given(names, &expanded)),
        Err(refusal) => Err(refusal),
    }
}

/// What a #line directive gives.
pub fn number_line(macros: &Macros, names: &mut Names, line: Line) -> Result<Given, Refusal>
    ensures stops { IfErr result Stops }
    ensures exact { IsNumbered macros.now names.old line names.new result }
{
    if !line.is_whole() {
        return Err(line.refusal(Misfit::Short));
    }
    read_expanded(macros, names, &line)
}
