// Definitions on the command line.
ghost use Rattle.std.specs.Prelude.{◌≡◌, ◌⊎◌, IfErr};
ghost use Rattle.c65_base.specs.Answers.{Gives};
ghost use Rattle.c65_macro.specs.Definitions;
ghost use Rattle.c65_macro.specs.Table;
ghost use Rattle.c65_ppline.specs.Causes.{Stops, StopsCommand};
ghost use Rattle.c65_ppdir.specs.CommandLine;
ghost use Rattle.c65_ppline.specs.Relations.{Comes, IsFree};

use c65_base::{Code, Name, Names, Pos, Refusal, Text};
use c65_lex::{Define, Lexer, PpKind, PpToken, PpTokens, class_of};
use c65_macro::{Macro, Macros};
use c65_ppline::{Lexed, define, intern, next_token};
use std::alloc::Global;

/// Where faults of definitions stand, by themselves.
fn place() -> Pos
    ensures { result ≡ CommandLine.place }
{
    Pos { file: 0, line: 1 }
}

fn is_line_end(token: &PpToken) -> bool
    ensures { result ≡ Table.is_line_end token.now }
{
    match token.kind {
        PpKind::LineEnd => true,
        _ => false,
    }
}

/// The tokens of a definition's text.
fn body_of(alloc: Global, names: &mut Names, text: Vec<u8>) -> Result<Vec<PpToken>, Refusal>
    ensures stops { IfErr result Stops }
    ensures exact { Comes (λ tokens. (tokens.items, names.new)) (CommandLine.body_of names.old text.items) result }
{
    let mut lexer = Lexer::new(alloc, text, 0);
    let mut tokens = Vec::new(alloc);
    let mut has_ended = false;
    for _ in 0..u64::MAX {
        match next_token(&mut lexer, names, false) {
            Ok(Lexed::Token(_)) if has_ended => return Err(Refusal::fault(
                Code::DirectiveForm,
                place(),
            )),
            Ok(Lexed::Token(token)) if is_line_end(&token) => has_ended = true,
            Ok(Lexed::Token(token)) => tokens.push(token)?,
            Ok(Lexed::End) => return Ok(tokens),
            Ok(Lexed::Cut(cut)) => return Err(cut.refusal()),
            Err(refusal) => return Err(refusal),
        }
    }
    Err(Refusal::OutOfMemory)
}

/// Whether a class is that of names.
fn is_name_class(class: Option<PpKind>) -> bool
    ensures { result ≡ CommandLine.is_name_class class }
{
    match class {
        Some(PpKind::Name) => true,
        _ => false,
    }
}

/// Defines a macro without parameters.
fn define_plain(macros: &mut Macros, name: Name, body: Vec<PpToken>) -> Result<(), Refusal>
    ensures stops { IfErr result Stops }
    ensures exact { Gives (λ _. macros.new) result (Definitions.define macros.old (CommandLine.plain_macro name body.items) CommandLine.place) }
{
    let item = Macro {
        name,
        params: None,
        body: PpTokens::from_vec(body),
    };
    define(macros, item, place())
}

/// Does one definition.
fn define_one(
    alloc: Global,
    macros: &mut Macros,
    names: &mut Names,
    item: &Define,
) -> Result<(), Refusal>
    ensures stops { IfErr result Stops }
    ensures exact { Comes (λ _. (macros.new, names.new)) (CommandLine.defined item.now macros.old names.old) result }
{
    if !is_name_class(class_of(item.name.as_slice())) {
        return Err(Refusal::fault(Code::DirectiveForm, place()));
    }
    let name = match intern(names, item.name.as_slice()) {
        Ok(name) => name,
        Err(refusal) => return Err(refusal),
    };
    let text = Vec::from_slice(alloc, item.body.as_slice())?;
    match body_of(alloc, names, text) {
        Ok(body) => define_plain(macros, name, body),
        Err(refusal) => Err(refusal),
    }
}

/// The refusal of the definition of this number: a fault has the command line as its file, and the number as its line.
fn numbered(alloc: Global, refusal: Refusal, number: u32) -> Refusal
    requires { Stops refusal }
    ensures stops { StopsCommand result }
    ensures exact { IsFree result ⊎ (result ≡ CommandLine.numbered number refusal) }
{
    match refusal {
        Refusal::At { code, .. } => match Text::copy_of(alloc, b"<command>") {
            Ok(file) => Refusal::Source {
                code,
                file,
                line: number,
            },
            Err(_) => Refusal::OutOfMemory,
        },
        other => other,
    }
}

/// Does the definitions in their order.
pub fn define_all(
    alloc: Global,
    macros: &mut Macros,
    names: &mut Names,
    defines: &[Define],
) -> Result<(), Refusal>
    ensures stops { IfErr result StopsCommand }
    ensures exact { Comes (λ _. (macros.new, names.new)) (CommandLine.all_defined 0 defines.now macros.old names.old) result }
{
    let mut number: u32 = 0;
    let mut rest = defines;
    while let Some((item, more)) = rest.split_first() {
        number = number.saturating_add(1);
        match define_one(alloc, macros, names, item) {
            Ok(()) => {}
            Err(refusal) => return Err(numbered(alloc, refusal, number)),
        }
        rest = more;
    }
    Ok(())
}
