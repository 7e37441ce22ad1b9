// The value of a constant expression of #if (C90 6.4 and 6.8.1). What is open stands on a stack, not on the host's.
ghost use Rattle.std.specs.Prelude.{◌≡◌, ◌∷◌, Some, IfOk, reverse, option_map};
ghost use Rattle.c65_ppexpr.specs.Expressions;
ghost use Rattle.c65_ppexpr.specs.Expressions.{need, needed, closed, parted, behind, step, ended, value_of};
ghost use Rattle.c65_ppexpr.specs.Readings.{state_of};

use crate::value::{Infix, Prefix, Value, chosen, combined, prefixed};
use c65_base::BinaryOp;
use std::alloc::{AllocError, Global};

/// A symbol of an expression.
#[derive(Clone, Copy)]
pub enum Symbol {
    Operand(Value),
    /// `+` and `-` are operators before an operand too.
    Operator(Infix),
    BitNot,
    Not,
    Opening,
    Closing,
    Question,
    Colon,
    /// A token that no constant expression has.
    Stranger,
}

/// A construct whose last place waits for a value.
#[derive(Clone, Copy)]
pub enum Frame {
    Before(Prefix),
    Paren,
    Left(Infix, Value),
    Then(Value),
    Else(Value, Value),
}

/// How tightly an operator binds (C90 6.3.5 to 6.3.14).
fn strength(op: Infix) -> u8
    ensures { result ≡ Expressions.strength op }
{
    match op {
        Infix::Or => 3,
        Infix::And => 4,
        Infix::Both(op) => match op {
            BinaryOp::BitOr => 5,
            BinaryOp::BitXor => 6,
            BinaryOp::BitAnd => 7,
            BinaryOp::Eq | BinaryOp::Ne => 8,
            BinaryOp::Lt | BinaryOp::Gt | BinaryOp::Le | BinaryOp::Ge => 9,
            BinaryOp::Shl | BinaryOp::Shr => 10,
            BinaryOp::Add | BinaryOp::Sub => 11,
            BinaryOp::Mul | BinaryOp::Div | BinaryOp::Rem => 12,
        },
    }
}

/// How tightly a construct holds the value in its last place.
fn hold(frame: Frame) -> u8
    ensures { result ≡ Expressions.hold frame }
{
    match frame {
        Frame::Before(_) => 13,
        Frame::Paren | Frame::Then(_) => 0,
        Frame::Left(op, _) => strength(op),
        Frame::Else(_, _) => 1,
    }
}

/// The value of a construct with a value in its last place.
fn filled(frame: Frame, value: Value) -> Value
    ensures { result ≡ Expressions.filled frame value }
{
    match frame {
        Frame::Before(op) => prefixed(op, value),
        Frame::Paren | Frame::Then(_) => value,
        Frame::Left(op, left) => combined(op, left, value),
        Frame::Else(condition, first) => chosen(condition, first, value),
    }
}

/// Gives a value to the constructs that hold it at least this tightly.
fn reduce(frames: &mut Vec<Frame>, tightness: u8, value: Value) -> Result<Value, AllocError>
    ensures { IfOk result (λ v. Expressions.reduced tightness value (reverse frames.old.items) ≡ (v, reverse frames.new.items)) }
{
    let mut value = value;
    while let Some(frame) = frames.pop() {
        if hold(frame) < tightness {
            frames.push(frame)?;
            break;
        }
        value = filled(frame, value);
    }
    Ok(value)
}

/// An expression that is being read: what is open, the innermost construct last, and the value read since.
#[derive(Drop)]
pub struct Reading {
    frames: Vec<Frame>,
    held: Option<Value>,
}

/// Opens a construct, whose last place needs a value.
fn open(frames: Vec<Frame>, frame: Frame) -> Result<Option<Reading>, AllocError>
    ensures { IfOk result (λ r. option_map state_of r ≡ Some (need (frame ∷ reverse frames.items))) }
{
    let mut frames = frames;
    frames.push(frame)?;
    Ok(Some(Reading { frames, held: None }))
}

/// Reads a symbol where a value is needed.
fn read_first(frames: Vec<Frame>, symbol: Symbol) -> Result<Option<Reading>, AllocError>
    ensures { IfOk result (λ r. option_map state_of r ≡ needed (reverse frames.items) symbol) }
{
    match symbol {
        Symbol::Operand(value) => Ok(Some(Reading {
            frames,
            held: Some(value),
        })),
        Symbol::Operator(Infix::Both(BinaryOp::Add)) => open(frames, Frame::Before(Prefix::Plus)),
        Symbol::Operator(Infix::Both(BinaryOp::Sub)) => open(frames, Frame::Before(Prefix::Neg)),
        Symbol::BitNot => open(frames, Frame::Before(Prefix::BitNot)),
        Symbol::Not => open(frames, Frame::Before(Prefix::Not)),
        Symbol::Opening => open(frames, Frame::Paren),
        _ => Ok(None),
    }
}

/// Closes a parenthesis behind a value.
fn close(frames: Vec<Frame>, value: Value) -> Option<Reading>
    ensures { option_map state_of result ≡ closed (value, reverse frames.items) }
{
    let mut frames = frames;
    match frames.pop() {
        Some(Frame::Paren) => Some(Reading {
            frames,
            held: Some(value),
        }),
        _ => None,
    }
}

/// Goes on behind the colon of a conditional expression.
fn part(frames: Vec<Frame>, value: Value) -> Result<Option<Reading>, AllocError>
    ensures { IfOk result (λ r. option_map state_of r ≡ parted (value, reverse frames.items)) }
{
    let mut frames = frames;
    match frames.pop() {
        Some(Frame::Then(condition)) => open(frames, Frame::Else(condition, value)),
        _ => Ok(None),
    }
}

/// Reads a symbol behind a value.
fn read_behind(
    frames: Vec<Frame>,
    value: Value,
    symbol: Symbol,
) -> Result<Option<Reading>, AllocError>
    ensures { IfOk result (λ r. option_map state_of r ≡ behind value (reverse frames.items) symbol) }
{
    let mut frames = frames;
    match symbol {
        Symbol::Operator(op) => {
            let left = reduce(&mut frames, strength(op), value)?;
            open(frames, Frame::Left(op, left))
        }
        Symbol::Question => {
            let condition = reduce(&mut frames, 2, value)?;
            open(frames, Frame::Then(condition))
        }
        Symbol::Colon => {
            let first = reduce(&mut frames, 1, value)?;
            part(frames, first)
        }
        Symbol::Closing => {
            let inner = reduce(&mut frames, 1, value)?;
            Ok(close(frames, inner))
        }
        _ => Ok(None),
    }
}

/// Reads one symbol; None where none can stand there.
fn read(reading: Reading, symbol: Symbol) -> Result<Option<Reading>, AllocError>
    ensures { IfOk result (λ r. option_map state_of r ≡ step (state_of reading) symbol) }
{
    let Reading { frames, held } = reading;
    match held {
        None => read_first(frames, symbol),
        Some(value) => read_behind(frames, value, symbol),
    }
}

/// The value where the expression ends here.
fn end(reading: Reading) -> Result<Option<Value>, AllocError>
    ensures { IfOk result (λ v. v ≡ ended (state_of reading)) }
{
    let Reading { frames, held } = reading;
    let Some(value) = held else {
        return Ok(None);
    };
    let mut frames = frames;
    let value = reduce(&mut frames, 1, value)?;
    if frames.is_empty() {
        Ok(Some(value))
    } else {
        Ok(None)
    }
}

/// The value of an expression; None where the symbols are no constant expression.
pub fn evaluate(alloc: Global, symbols: &[Symbol]) -> Result<Option<Value>, AllocError>
    ensures { IfOk result (λ v. v ≡ value_of symbols.now) }
{
    let mut reading = Reading {
        frames: Vec::new(alloc),
        held: None,
    };
    for symbol in symbols {
        match read(reading, *symbol)? {
            Some(next) => reading = next,
            None => return Ok(None),
        }
    }
    end(reading)
}
