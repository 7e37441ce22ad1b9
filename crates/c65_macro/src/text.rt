// What # and ## make of tokens (C90 6.8.3.2 and 6.8.3.3).
ghost use Rattle.std.specs.Prelude.{◌≡◌, ◌++◌, List, IfErr, IfOk, OnOk};
ghost use Rattle.c65_macro.specs.Refusals.{StopsExpansion};
ghost use Rattle.c65_macro.specs.declared.sets.Node.{Node};
ghost use Rattle.c65_macro.specs.Sets.{Extends, set_of};
ghost use Rattle.c65_macro.specs.Items;
ghost use Rattle.c65_macro.specs.Fill;
ghost use Rattle.c65_macro.specs.Answered.{Gives};
ghost use Rattle.c65_macro.specs.Views.{item_of, tokens_of};

use crate::marked::Marked;
use crate::sets::{Hide, Sets};
use c65_base::{Code, Name, Names, Pos, Refusal};
use c65_lex::{PpKind, PpToken, class_of};
use std::alloc::{AllocError, Global};

/// The spelling of a name.
fn spelling(names: &Names, name: Name) -> &[u8]
    ensures { result.now ≡ Items.spelling names.now name }
{
    match names.spelling(name) {
        Some(spelling) => spelling,
        None => &[],
    }
}

/// Adds the bytes with a backslash before each quote and backslash.
fn push_escaped(text: &mut Vec<u8>, bytes: &[u8]) -> Result<(), AllocError>
    ensures { OnOk result (text.new.items ≡ text.old.items ++ Fill.escaped bytes.now) }
{
    let mut rest = bytes;
    while let Some((byte, more)) = rest.split_first() {
        if *byte == b'"' || *byte == b'\\' {
            text.push(b'\\')?;
        }
        text.push(*byte)?;
        rest = more;
    }
    Ok(())
}

/// Adds a token's spelling as it stands in a string literal.
fn push_shown(text: &mut Vec<u8>, names: &Names, token: &PpToken) -> Result<(), AllocError>
    ensures { OnOk result (text.new.items ≡ text.old.items ++ Fill.shown names.now token.now) }
{
    let spelling = spelling(names, token.spelling);
    match token.kind {
        PpKind::Char | PpKind::Text => push_escaped(text, spelling),
        _ => text.extend_from_slice(spelling),
    }
}

/// Adds the tokens behind the first, each with a space where white space stands before it.
fn push_rest(text: &mut Vec<u8>, names: &Names, argument: &[Marked]) -> Result<(), AllocError>
    ensures { OnOk result (text.new.items ≡ text.old.items ++ Fill.shown_rest names.now (tokens_of argument.now)) }
{
    let mut rest = argument;
    while let Some((item, more)) = rest.split_first() {
        if item.token.space {
            text.push(b' ')?;
        }
        push_shown(text, names, &item.token)?;
        rest = more;
    }
    Ok(())
}

/// The spelling of the string literal that shows an argument.
fn stringized(alloc: Global, names: &Names, argument: &[Marked]) -> Result<Vec<u8>, AllocError>
    ensures { IfOk result (λ text. text.items ≡ Fill.stringized names.now (tokens_of argument.now)) }
{
    let mut text = Vec::new(alloc);
    text.push(b'"')?;
    if let Some((item, more)) = argument.split_first() {
        push_shown(&mut text, names, &item.token)?;
        push_rest(&mut text, names, more)?;
    }
    text.push(b'"')?;
    Ok(text)
}

/// The name of a spelling that an expansion makes.
fn learn(names: &mut Names, spelling: &[u8]) -> Result<Name, Refusal>
    ensures refused { IfErr result StopsExpansion }
    ensures grows { Extends names.old names.new }
    ensures value { Gives (λ name. name) result names.new (Items.learn names.old spelling.now) }
{
    names.intern(spelling)
}

/// A token that is made in the place of another.
pub fn made(
    names: &mut Names,
    kind: PpKind,
    text: &[u8],
    pos: Pos,
    space: bool,
    hide: Hide,
) -> Result<Marked, Refusal>
    ensures refused { IfErr result StopsExpansion }
    ensures grows { Extends names.old names.new }
    ensures value { (nodes : List Node) → Gives (item_of nodes) result names.new (Items.made names.old kind text.now pos space (set_of nodes hide.0)) }
{
    let spelling = learn(names, text)?;
    Ok(Marked {
        token: PpToken {
            kind,
            spelling,
            pos,
            space,
        },
        hide,
        put: true,
    })
}

/// The string literal that # makes of an argument.
pub fn string_of(
    alloc: Global,
    names: &mut Names,
    argument: &[Marked],
    pos: Pos,
    space: bool,
) -> Result<Marked, Refusal>
    ensures refused { IfErr result StopsExpansion }
    ensures grows { Extends names.old names.new }
    ensures value { (nodes : List Node) → Gives (item_of nodes) result names.new (Fill.literal names.old pos space (tokens_of argument.now)) }
{
    let text = stringized(alloc, names, argument)?;
    made(names, PpKind::Text, &text, pos, space, Hide::EMPTY)
}

/// The spellings of two tokens without anything between them.
fn joint(alloc: Global, names: &Names, left: &Marked, right: &Marked) -> Result<Vec<u8>, AllocError>
    ensures { IfOk result (λ text. text.items ≡ Items.spelling names.now left.now.token.spelling ++ Items.spelling names.now right.now.token.spelling) }
{
    let mut text = Vec::from_slice(alloc, spelling(names, left.token.spelling))?;
    text.extend_from_slice(spelling(names, right.token.spelling))?;
    Ok(text)
}

/// The token that ## makes of two.
pub fn glue(
    alloc: Global,
    names: &mut Names,
    sets: &mut Sets,
    pos: Pos,
    left: Marked,
    right: Marked,
) -> Result<Marked, Refusal>
    ensures refused { IfErr result StopsExpansion }
    ensures grows { Extends names.old names.new }
    ensures kept { Extends sets.old sets.new }
    ensures value { (nodes : List Node) → Extends sets.new nodes → Gives (item_of nodes) result names.new (Fill.glue names.old pos (item_of nodes left) (item_of nodes right)) }
{
    let text = joint(alloc, names, &left, &right)?;
    let Some(kind) = class_of(&text) else {
        return Err(Refusal::At {
            code: Code::BadPaste,
            pos,
        });
    };
    let hide = sets.both(left.hide, right.hide)?;
    made(names, kind, &text, pos, left.token.space, hide)
}
