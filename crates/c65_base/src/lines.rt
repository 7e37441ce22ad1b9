// The exact line of a refusal, without taking memory.
ghost use Rattle.std.specs.Prelude.{◌≡◌, ◌<◌, ◌≤◌, ◌∷◌, [], List, ℕ, map, drop, decimal};
ghost use Rattle.c65_base.specs.Lines.{joined, line_of, hex_word, hex_digit as digit_of, first_number_of, code_number_of, address_of, text_of, word_of};

use crate::refusal::Refusal;
use itoa::write_digits;
use std::marker::Model;

/// The decimal digits of a number.
#[derive(Drop)]
struct Digits {
    bytes: [u8; 20],
    start: usize,
}

impl Model for Digits {
    ghost Value = { List ℕ };

    ghost view = { λ d. drop d.start d.bytes };

    ghost invariant = { λ d. d.start ≤ 20 };
}

impl Digits {
    fn of(number: u64) -> Digits
        ensures { result ≡ decimal number }
    {
        let mut bytes = [48; 20];
        let start = write_digits(number, &mut bytes, 20);
        Digits { bytes, start }
    }

    fn as_slice(&self) -> &[u8]
        ensures { result.now ≡ self.now }
    {
        &self.bytes[self.start..]
    }
}

/// The exact line of a refusal, which contracts see as its bytes. It takes no memory.
#[derive(Drop)]
pub struct Line<'a> {
    refusal: &'a Refusal,
    first: Digits,
    code: Digits,
    address: [u8; 4],
}

impl<'a> Model for Line<'a> {
    ghost use Rattle.std.specs.Prelude.{◌≡◌, List, ℕ, decimal};
    ghost use Rattle.c65_base.specs.Lines.{line_of, hex_word, first_number_of, code_number_of, address_of};

    ghost Value = { List ℕ };

    ghost view = { λ l. line_of l.refusal.now };

    ghost invariant = { λ l. (l.first ≡ decimal (first_number_of l.refusal.now)) × (l.code ≡ decimal (code_number_of l.refusal.now)) × (l.address ≡ hex_word (address_of l.refusal.now)) };
}

impl<'a> Line<'a> {
    /// The line's parts: written one after another they are the line, with its line feed. Parts that are not needed
    /// are empty.
    pub fn parts(&self) -> [&[u8]; 6]
        ensures { joined (map (λ part. part.now) result) ≡ self.now }
    {
        let first = self.first.as_slice();
        let code = self.code.as_slice();
        let text = self.refusal.text();
        let word = self.refusal.word();
        self.refusal
            .arrange(first, code, &self.address[..], text, word)
    }
}

fn hex_digit(value: u16) -> u8
    requires { value < 16 }
    ensures { result ≡ digit_of value }
{
    if value < 10 {
        48 + value as u8
    } else {
        55 + value as u8
    }
}

/// Four hexadecimal digits, with capital letters.
pub fn hex_digits(value: u16) -> [u8; 4]
    ensures { result ≡ hex_word value }
{
    [
        hex_digit(value / 4096),
        hex_digit(value / 256 % 16),
        hex_digit(value / 16 % 16),
        hex_digit(value % 16),
    ]
}

fn one_part<'a>(text: &'a [u8]) -> [&'a [u8]; 6]
    ensures { joined (map (λ part. part.now) result) ≡ joined (text.now ∷ []) }
{
    [text, b"", b"", b"", b"", b""]
}

fn three_parts<'a>(before: &'a [u8], text: &'a [u8], after: &'a [u8]) -> [&'a [u8]; 6]
    ensures { joined (map (λ part. part.now) result) ≡ joined (before.now ∷ text.now ∷ after.now ∷ []) }
{
    [before, text, after, b"", b"", b""]
}

fn five_parts<'a>(
    before: &'a [u8],
    first: &'a [u8],
    between: &'a [u8],
    second: &'a [u8],
    after: &'a [u8],
) -> [&'a [u8]; 6]
    ensures { joined (map (λ part. part.now) result) ≡ joined (before.now ∷ first.now ∷ between.now ∷ second.now ∷ after.now ∷ []) }
{
    [before, first, between, second, after, b""]
}

impl Refusal {
    /// The number that the line gives first in decimal.
    fn first_number(&self) -> u64
        ensures { result ≡ first_number_of self.now }
    {
        match self {
            Refusal::Usage { word } => *word,
            Refusal::Source { line, .. } => u64::from(*line),
            Refusal::TooLarge { value, .. } => *value,
            Refusal::BadImage { offset } => u64::from(*offset),
            Refusal::Limit { count } => *count,
            _ => 0,
        }
    }

    /// The number of the fault that the line names.
    fn code_number(&self) -> u16
        ensures { result ≡ code_number_of self.now }
    {
        match self {
            Refusal::Source { code, .. } | Refusal::At { code, .. } => code.number(),
            _ => 0,
        }
    }

    /// The address that the line gives in hexadecimal.
    fn address(&self) -> u16
        ensures { result ≡ address_of self.now }
    {
        match self {
            Refusal::HardStack { pc } | Refusal::Illegal { pc } => *pc,
            _ => 0,
        }
    }

    /// The text that the line gives: a path, a file or a name.
    fn text(&self) -> &[u8]
        ensures { result.now ≡ text_of self.now }
    {
        match self {
            Refusal::Missing { path } => path.as_slice(),
            Refusal::Source { file, .. } => file.as_slice(),
            Refusal::Link { name, .. } => name.as_slice(),
            _ => b"",
        }
    }

    /// The name of the limit or of the kind that the line gives.
    fn word(&self) -> &[u8]
        ensures { result.now ≡ word_of self.now }
    {
        match self {
            Refusal::TooLarge { limit, .. } => limit.name(),
            Refusal::Link { kind, .. } => kind.name(),
            _ => b"",
        }
    }

    /// The line's parts, from what it gives in numbers, texts and words.
    fn arrange<'a>(
        &self,
        first: &'a [u8],
        code: &'a [u8],
        address: &'a [u8],
        text: &'a [u8],
        word: &'a [u8],
    ) -> [&'a [u8]; 6]
        requires first { first.now ≡ decimal (first_number_of self.now) }
        requires code { code.now ≡ decimal (code_number_of self.now) }
        requires address { address.now ≡ hex_word (address_of self.now) }
        requires text { text.now ≡ text_of self.now }
        requires word { word.now ≡ word_of self.now }
        ensures { joined (map (λ part. part.now) result) ≡ line_of self.now }
    {
        match self {
            Refusal::OutOfMemory => one_part(b"c65: out of memory\n"),
            Refusal::Usage { .. } => three_parts(b"c65: usage at word ", first, b"\n"),
            Refusal::Missing { .. } => three_parts(b"c65: missing file ", text, b"\n"),
            Refusal::ReadFault => one_part(b"c65: read fault\n"),
            Refusal::WriteFault => one_part(b"c65: write fault\n"),
            Refusal::Source { .. } => [text, b":", first, b": error ", code, b"\n"],
            Refusal::At { .. } => three_parts(b"c65: error ", code, b"\n"),
            Refusal::TooLarge { .. } => five_parts(b"c65: too large: ", word, b" ", first, b"\n"),
            Refusal::BadImage { .. } => three_parts(b"c65: bad image at ", first, b"\n"),
            Refusal::Link { .. } => five_parts(b"c65: link: ", word, b" ", text, b"\n"),
            Refusal::HardStack { .. } => three_parts(b"c65: hard stack at ", address, b"\n"),
            Refusal::Limit { .. } => three_parts(b"c65: limit ", first, b"\n"),
            Refusal::Illegal { .. } => three_parts(b"c65: illegal opcode at ", address, b"\n"),
        }
    }

    /// The exact line that tells of the refusal, with its line feed.
    pub fn line(&self) -> Line<'_>
        ensures { result ≡ line_of self.now }
    {
        Line {
            refusal: self,
            first: Digits::of(self.first_number()),
            code: Digits::of(u64::from(self.code_number())),
            address: hex_digits(self.address()),
        }
    }
}
