// String literals as the initial values of arrays of characters (C90 6.5.7).
ghost use Rattle.std.specs.Prelude.{◌≡◌, ◌<◌, ◌^◌, Ok, length, map, option_copied};
ghost use Rattle.c65_base.specs.Answers.{Gives};
ghost use Rattle.c65_ctype.specs.Views.{ty_of};
ghost use Rattle.c65_tree.specs.View.{expr_of, init_of};
ghost use Rattle.c65_init_cells.specs.Sinks.{sink_of, with_char, char_kind, text_elements, text_put};
ghost use Rattle.c65_init_cells.specs.Values.{is_char, text_of, only_text, init_text, text_for};

use crate::cells::put_number;
use crate::sink::{Sink, fault, set};
use c65_base::{Code, Pos, Refusal, Size, Text as Bytes};
use c65_csem::{TExpr, TKind, int_type};
use c65_ctype::CType;
use c65_ints::{IntType, wrap};
use c65_tree::{Expr, ExprKind, InitKind, Initialiser};

fn is_char(ty: &CType) -> bool
    ensures { result ≡ is_char (ty_of ty.now) }
{
    match ty {
        CType::Int(IntType::SChar | IntType::UChar) => true,
        _ => false,
    }
}

fn text_of(e: &Expr) -> Option<&Bytes>
    ensures { option_copied result ≡ text_of (expr_of e.now) }
{
    match &e.kind {
        ExprKind::Text(bytes) => Some(bytes),
        _ => None,
    }
}

/// The string literal of a list that has one item alone.
fn text_in(items: &[Initialiser]) -> Option<&Bytes>
    ensures { option_copied result ≡ only_text (map init_of items.now) }
{
    match items {
        [item] => match &item.kind {
            InitKind::Value(e) => text_of(e),
            InitKind::List(_) => None,
        },
        _ => None,
    }
}

/// The string literal that initialises an array of characters, with or without braces.
pub fn text_for<'a>(ty: &CType, init: &'a Initialiser) -> Option<&'a Bytes>
    ensures { option_copied result ≡ text_for (ty_of ty.now) (init_of init.now) }
{
    let CType::Array(element, _) = ty else {
        return None;
    };
    if !is_char(&element.ty) {
        return None;
    }
    whole_text(init)
}

/// The string literal that is all of an initialiser.
fn whole_text(init: &Initialiser) -> Option<&Bytes>
    ensures { option_copied result ≡ init_text (init_of init.now) }
{
    match &init.kind {
        InitKind::Value(e) => text_of(e),
        InitKind::List(items) => text_in(items),
    }
}

/// A character of an array.
fn put_char(sink: &mut Sink, offset: u32, kind: IntType, byte: u8) -> Result<(), Refusal>
    ensures { Gives (λ x. sink_of sink.new) result (Ok (with_char (sink_of sink.old) offset kind byte)) }
{
    if !sink.is_automatic {
        put_number(&mut sink.cells, offset, 1, byte as i64)?;
        return Ok(());
    }
    if byte == 0 {
        return Ok(());
    }
    let value = TExpr {
        ty: int_type(kind),
        kind: TKind::Const(wrap(kind, byte as i64)),
    };
    set(sink, offset, value)
}

/// The number of elements of an array of characters that so many begin: all that it has, or one
/// more for the last zero.
fn elements(count: Option<u32>, length: usize, pos: Pos) -> Result<u32, Refusal>
    requires { length < 2 ^ 63 }
    ensures { Gives (λ n. n) result (text_elements count length pos) }
{
    match count {
        Some(count) => {
            if length > count as usize {
                return Err(fault(Code::Initialiser, pos));
            }
            Ok(count)
        }
        None => {
            if length as u64 >= Size::Object.number() {
                return Err(Refusal::TooLarge {
                    limit: Size::Object,
                    value: length as u64 + 1,
                });
            }
            Ok(length as u32 + 1)
        }
    }
}

fn kind_of(element: &CType) -> IntType
    ensures { result ≡ char_kind (ty_of element.now) }
{
    match element {
        CType::Int(kind) => *kind,
        _ => IntType::UChar,
    }
}

/// The characters of a string literal as those of an array; it answers the number of the array's
/// elements.
pub fn put_text(
    sink: &mut Sink,
    element: &CType,
    count: Option<u32>,
    offset: u32,
    text: &Bytes,
    pos: Pos,
) -> Result<u32, Refusal>
    ensures { Gives (λ n. (n, sink_of sink.new)) result (text_put (sink_of sink.old) (ty_of element.now) count offset text.now pos) }
{
    let kind = kind_of(element);
    let chars = text.as_slice();
    let count = elements(count, chars.len(), pos)?;
    let mut at = offset;
    for byte in chars {
        put_char(sink, at, kind, *byte)?;
        at = at.saturating_add(1);
    }
    Ok(count)
}
