// One line of assembly text.
ghost use Rattle.std.specs.Prelude.{◌≡◌, ◌∷◌, option_map, take, drop, None};
ghost use Rattle.c65_code.specs.Names.{routine_named};
ghost use Rattle.c65_asm.specs.Lent.{parts};
ghost use Rattle.c65_asm.specs.Rows.{moded, based_on, called, told, Run, Call as Called, low_of, high_of, literal_of, instruction_from, target_mode, immediate_in, bracketed, brackets_in, letter_index, indexed_from, zero_mode, absolute_mode, at_byte_or, address_in, target_of, operand_by, operand_in, call_by, sets_in, called_in, is_jsr, operation, instruction_in, datum_in, function_in, zeros_in, address_row, directive_by, directive_in, label_in, head_in, row_by, row_in};
ghost use Rattle.c65_asm.specs.Words.{cut_at, number_in, byte_in, place_in};

use crate::mnemonic::op_of;
use crate::words::{byte, cut, is_symbol, number, place, registers};
use c65_code::{DatumKind, RegSet, Routine};
use c65_mach::{Mode, Op};

/// How an address is indexed.
#[derive(Clone, Copy)]
pub enum Index {
    Plain,
    X,
    Y,
}

/// An operand, in which a symbol stands by its spelling.
#[derive(Clone, Copy)]
pub enum Value<'a> {
    Nothing,
    Byte(u8),
    Low(&'a [u8], u16),
    High(&'a [u8], u16),
    Zero(u8),
    At(&'a [u8], u16),
    To(u32),
}

/// What is called.
#[derive(Clone, Copy)]
pub enum Call<'a> {
    Routine(Routine),
    Function(&'a [u8], RegSet, RegSet),
    Pointer(RegSet, RegSet),
}

/// What a line says.
#[derive(Clone, Copy)]
pub enum Row<'a> {
    /// The first line, and whether main takes arguments.
    Head(bool),
    /// A function begins.
    Function(&'a [u8], RegSet),
    /// Data begin.
    Data(DatumKind, &'a [u8]),
    /// Zero bytes.
    Zeros(&'a [u8], u32),
    /// Bytes, as they are written with commas between them.
    Bytes(&'a [u8]),
    Address(&'a [u8], u16),
    End,
    Label(u32),
    Do(Op, Mode, Value<'a>),
    Call(Call<'a>),
}

fn low(text: &[u8]) -> Option<(Mode, Value<'_>)>
    ensures { option_map moded result ≡ option_map low_of (place_in text.now) }
{
    let (symbol, offset) = place(text)?;
    Some((Mode::Immediate, Value::Low(symbol, offset)))
}

fn high(text: &[u8]) -> Option<(Mode, Value<'_>)>
    ensures { option_map moded result ≡ option_map high_of (place_in text.now) }
{
    let (symbol, offset) = place(text)?;
    Some((Mode::Immediate, Value::High(symbol, offset)))
}

fn literal(text: &[u8]) -> Option<(Mode, Value<'_>)>
    ensures { option_map moded result ≡ option_map literal_of (byte_in text.now) }
{
    let value = byte(text)?;
    Some((Mode::Immediate, Value::Byte(value)))
}

// What stands behind a number sign.
fn immediate(text: &[u8]) -> Option<(Mode, Value<'_>)>
    ensures { option_map moded result ≡ immediate_in text.now }
{
    match text {
        [] => None,
        [sign, rest @ ..] => {
            if *sign == b'<' {
                low(rest)
            } else if *sign == b'>' {
                high(rest)
            } else {
                literal(text)
            }
        }
    }
}

fn bracketed(text: &[u8], at: u8) -> Option<(Mode, Value<'_>)>
    ensures { option_map moded result ≡ bracketed text.now at }
{
    if text == b",X)".as_slice() {
        Some((Mode::IndirectX, Value::Zero(at)))
    } else if text == b"),Y".as_slice() {
        Some((Mode::IndirectY, Value::Zero(at)))
    } else if text == b")".as_slice() {
        Some((Mode::ZeroPageIndirect, Value::Zero(at)))
    } else {
        None
    }
}

// What stands behind a bracket.
fn in_brackets(text: &[u8]) -> Option<(Mode, Value<'_>)>
    ensures { option_map moded result ≡ brackets_in text.now }
{
    if text.len() < 3 {
        return None;
    }
    let (at, rest) = text.split_at(3);
    let at = byte(at)?;
    bracketed(rest, at)
}

fn letter_index(text: &[u8]) -> Option<Index>
    ensures { result ≡ letter_index text.now }
{
    if text == b"X".as_slice() {
        Some(Index::X)
    } else if text == b"Y".as_slice() {
        Some(Index::Y)
    } else {
        None
    }
}

// An address without its index, and the index.
fn indexed(text: &[u8]) -> Option<(&[u8], Index)>
    ensures { option_map based_on result ≡ indexed_from text.now (cut_at 44 text.now) }
{
    let Some((base, letter)) = cut(text, b',') else {
        return Some((text, Index::Plain));
    };
    let index = letter_index(letter)?;
    Some((base, index))
}

fn zero_mode(index: Index) -> Mode
    ensures { result ≡ zero_mode index }
{
    match index {
        Index::Plain => Mode::ZeroPage,
        Index::X => Mode::ZeroPageX,
        Index::Y => Mode::ZeroPageY,
    }
}

fn absolute_mode(index: Index) -> Mode
    ensures { result ≡ absolute_mode index }
{
    match index {
        Index::Plain => Mode::Absolute,
        Index::X => Mode::AbsoluteX,
        Index::Y => Mode::AbsoluteY,
    }
}

fn based(base: &[u8], index: Index) -> Option<(Mode, Value<'_>)>
    ensures { option_map moded result ≡ at_byte_or index base.now (byte_in base.now) }
{
    if let Some(at) = byte(base) {
        return Some((zero_mode(index), Value::Zero(at)));
    }
    let (symbol, offset) = place(base)?;
    Some((absolute_mode(index), Value::At(symbol, offset)))
}

fn address(text: &[u8]) -> Option<(Mode, Value<'_>)>
    ensures { option_map moded result ≡ address_in text.now }
{
    let (base, index) = indexed(text)?;
    based(base, index)
}

fn target_mode(op: Op) -> Mode
    ensures { result ≡ target_mode op }
{
    match op {
        Op::Jmp => Mode::Absolute,
        _ => Mode::Relative,
    }
}

// A label, behind its letter.
fn target(op: Op, text: &[u8]) -> Option<(Mode, Value<'_>)>
    ensures { option_map moded result ≡ option_map (target_of op) (number_in text.now) }
{
    let label = number(text)?;
    Some((target_mode(op), Value::To(label)))
}

fn operand_by<'a>(op: Op, first: u8, rest: &'a [u8], text: &'a [u8]) -> Option<(Mode, Value<'a>)>
    requires { text.now ≡ first ∷ rest.now }
    ensures { option_map moded result ≡ operand_by op first rest.now }
{
    match first {
        b'#' => immediate(rest),
        b'(' => in_brackets(rest),
        b'L' => target(op, rest),
        _ => address(text),
    }
}

fn operand(op: Op, text: &[u8]) -> Option<(Mode, Value<'_>)>
    ensures { option_map moded result ≡ operand_in op text.now }
{
    if text == b"A".as_slice() {
        return Some((Mode::Accumulator, Value::Nothing));
    }
    match text {
        [first, rest @ ..] => operand_by(op, *first, rest, text),
        [] => None,
    }
}

fn call_by(name: &[u8], reads: RegSet, gives: RegSet) -> Option<Call<'_>>
    ensures { option_map called result ≡ call_by name.now reads gives }
{
    if name == b"callptr4".as_slice() {
        Some(Call::Pointer(reads, gives))
    } else if is_symbol(name) {
        Some(Call::Function(name, reads, gives))
    } else {
        None
    }
}

fn sets(text: &[u8]) -> Option<(RegSet, RegSet)>
    ensures { result ≡ sets_in text.now }
{
    let (reads, gives) = cut(text, b',')?;
    let reads = registers(reads)?;
    let gives = registers(gives)?;
    Some((reads, gives))
}

fn routine(text: &[u8]) -> Option<Call<'_>>
    ensures { option_map called result ≡ option_map Run (routine_named text.now) }
{
    match Routine::by_name(text) {
        Some(which) => Some(Call::Routine(which)),
        None => None,
    }
}

fn called(text: &[u8]) -> Option<Call<'_>>
    ensures { option_map called result ≡ called_in text.now }
{
    let Some((name, passed)) = cut(text, b',') else {
        return routine(text);
    };
    let (reads, gives) = sets(passed)?;
    call_by(name, reads, gives)
}

fn call_row(text: &[u8]) -> Option<Row<'_>>
    ensures { option_map told result ≡ option_map Called (called_in text.now) }
{
    let called = called(text)?;
    Some(Row::Call(called))
}

fn operation(op: Op, text: &[u8]) -> Option<Row<'_>>
    ensures { option_map told result ≡ operation text.now op }
{
    if op == Op::Jsr {
        return call_row(text);
    }
    let (mode, value) = operand(op, text)?;
    Some(Row::Do(op, mode, value))
}

fn implied(text: &[u8]) -> Option<Row<'_>>
    ensures { option_map told result ≡ instruction_from text.now None }
{
    let op = op_of(text)?;
    Some(Row::Do(op, Mode::Implied, Value::Nothing))
}

// What stands behind a tab.
fn instruction(text: &[u8]) -> Option<Row<'_>>
    ensures { option_map told result ≡ instruction_in text.now }
{
    let Some((name, rest)) = cut(text, b' ') else {
        return implied(text);
    };
    let op = op_of(name)?;
    operation(op, rest)
}

fn data(kind: DatumKind, text: &[u8]) -> Option<Row<'_>>
    ensures { option_map told result ≡ datum_in kind text.now }
{
    if is_symbol(text) {
        Some(Row::Data(kind, text))
    } else {
        None
    }
}

fn function(text: &[u8]) -> Option<Row<'_>>
    ensures { option_map told result ≡ function_in text.now }
{
    let (symbol, out) = cut(text, b',')?;
    let out = registers(out)?;
    if is_symbol(symbol) {
        Some(Row::Function(symbol, out))
    } else {
        None
    }
}

fn zeros(text: &[u8]) -> Option<Row<'_>>
    ensures { option_map told result ≡ zeros_in text.now }
{
    let (symbol, count) = cut(text, b',')?;
    let count = number(count)?;
    if is_symbol(symbol) {
        Some(Row::Zeros(symbol, count))
    } else {
        None
    }
}

fn address_row(text: &[u8]) -> Option<Row<'_>>
    ensures { option_map told result ≡ address_row text.now }
{
    let (symbol, offset) = place(text)?;
    Some(Row::Address(symbol, offset))
}

fn directive_by<'a>(name: &[u8], text: &'a [u8]) -> Option<Row<'a>>
    ensures { option_map told result ≡ directive_by name.now text.now }
{
    if name == b"code".as_slice() {
        function(text)
    } else if name == b"data".as_slice() {
        data(DatumKind::Data, text)
    } else if name == b"const".as_slice() {
        data(DatumKind::Const, text)
    } else if name == b"zero".as_slice() {
        zeros(text)
    } else if name == b"byte".as_slice() {
        Some(Row::Bytes(text))
    } else if name == b"addr".as_slice() {
        address_row(text)
    } else {
        None
    }
}

// What stands behind a point.
fn directive(text: &[u8]) -> Option<Row<'_>>
    ensures { option_map told result ≡ directive_in text.now }
{
    match cut(text, b' ') {
        Some((name, rest)) => directive_by(name, rest),
        None => {
            if text == b"end".as_slice() {
                Some(Row::End)
            } else {
                None
            }
        }
    }
}

// What stands behind the letter of a label.
fn label(text: &[u8]) -> Option<Row<'_>>
    ensures { option_map told result ≡ label_in text.now }
{
    let (label, rest) = cut(text, b':')?;
    if !rest.is_empty() {
        return None;
    }
    let label = number(label)?;
    Some(Row::Label(label))
}

// What stands behind a semicolon.
fn head(text: &[u8]) -> Option<Row<'_>>
    ensures { option_map told result ≡ head_in text.now }
{
    if text == b" c65 text 1".as_slice() {
        Some(Row::Head(false))
    } else if text == b" c65 text 1 args".as_slice() {
        Some(Row::Head(true))
    } else {
        None
    }
}

fn row_by(first: u8, text: &[u8]) -> Option<Row<'_>>
    ensures { option_map told result ≡ row_by first text.now }
{
    match first {
        b'\t' => instruction(text),
        b'.' => directive(text),
        b'L' => label(text),
        b';' => head(text),
        _ => None,
    }
}

/// What a line says, without its line feed; none where no line of a text is so.
pub fn row_of(line: &[u8]) -> Option<Row<'_>>
    ensures { option_map told result ≡ row_in line.now }
{
    match line {
        [first, rest @ ..] => row_by(*first, rest),
        [] => None,
    }
}
