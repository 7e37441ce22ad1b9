// Macros that are defined and used.
ghost use Rattle.std.specs.Prelude.{◌<◌, ◌≤◌, length};

use c65_base::{Name, Names, Options, Pos, Refusal};
use c65_lex::{PpKind, PpToken, PpTokens, class_of};
use c65_macro::{Expander, Macro, Macros, Params};
use std::alloc::Global;

/// A text with its lines.
fn with_lines(alloc: Global, text: &str) -> Result<Vec<u8>, Refusal> {
    let mut bytes = Vec::new(alloc);
    for byte in text.as_bytes() {
        bytes.push(if *byte == b'`' { b'\n' } else { *byte })?;
    }
    Ok(bytes)
}

/// The longest spelling of a token at the front.
fn longest(text: &[u8]) -> usize
    requires { 0 < length text.now }
    ensures positive { 0 < result }
    ensures within { result ≤ length text.now }
{
    let mut length = text.len();
    while length > 1 {
        if class_of(&text[..length]).is_some() {
            return length;
        }
        length -= 1;
    }
    length
}

/// The tokens of a text, whose lines begin with this one.
pub fn lex(
    alloc: Global,
    names: &mut Names,
    text: &[u8],
    first: u32,
) -> Result<Vec<PpToken>, Refusal> {
    let mut tokens = Vec::new(alloc);
    let mut rest = text;
    let mut space = false;
    let mut line = first;
    while !rest.is_empty() {
        let length = longest(rest);
        let spelling = &rest[..length];
        if rest[0] == b' ' {
            space = true;
        } else {
            tokens.push(PpToken {
                kind: class_of(spelling).unwrap_or(PpKind::Other),
                spelling: names.intern(spelling)?,
                pos: Pos { file: 0, line },
                space,
            })?;
            space = false;
        }
        if rest[0] == b'\n' {
            line = line.saturating_add(1);
        }
        rest = &rest[length..];
    }
    Ok(tokens)
}

/// The parameters between parentheses, and how many tokens they take.
fn params_of(
    alloc: Global,
    comma: Name,
    close: Name,
    tokens: &[PpToken],
) -> Result<(Vec<Name>, usize), Refusal> {
    let mut params = Vec::new(alloc);
    for (i, token) in tokens.iter().enumerate() {
        if token.spelling == close {
            return Ok((params, i + 1));
        }
        if token.spelling != comma {
            params.push(token.spelling)?;
        }
    }
    Ok((params, tokens.len()))
}

/// Defines a macro as a directive's line does behind its name.
pub fn define(
    alloc: Global,
    macros: &mut Macros,
    names: &mut Names,
    text: &[u8],
) -> Result<(), Refusal> {
    let tokens = lex(alloc, names, text, 1)?;
    let open = names.intern(b"(")?;
    let close = names.intern(b")")?;
    let comma = names.intern(b",")?;
    let Some((name, rest)) = tokens.split_first() else {
        return Ok(());
    };
    let mut params = None;
    let mut body = rest;
    if let Some((first, inner)) = rest.split_first() {
        if first.spelling == open && !first.space {
            let (list, count) = params_of(alloc, comma, close, inner)?;
            params = Some(Params::from_vec(list));
            body = inner.get(count..).unwrap_or(&[]);
        }
    }
    let item = Macro {
        name: name.spelling,
        params,
        body: PpTokens::from_vec(Vec::from_slice(alloc, body)?),
    };
    macros.define(item, name.pos)
}

/// The tokens' spellings, with a space between them where one is told.
pub fn shown(alloc: Global, names: &Names, tokens: &[PpToken]) -> Result<Vec<u8>, Refusal> {
    let mut text = Vec::new(alloc);
    for token in tokens {
        if token.space {
            text.push(b' ')?;
        }
        text.extend_from_slice(names.spelling(token.spelling).unwrap_or(b"?"))?;
    }
    Ok(text)
}

/// Macros, the names of their tokens, and an expansion that is fed.
#[derive(Drop)]
pub struct Desk {
    names: Names,
    macros: Macros,
    expander: Expander,
}

impl Desk {
    /// No macros but those that are predefined, and nothing is fed.
    pub fn new(alloc: Global) -> Result<Desk, Refusal> {
        let mut names = Names::new(alloc);
        let macros = Macros::new(alloc, &Options::none(), &mut names)?;
        Ok(Desk {
            names,
            macros,
            expander: Expander::new(alloc),
        })
    }

    fn expansion(&mut self, alloc: Global, text: &[u8]) -> Result<Vec<u8>, Refusal> {
        let line = lex(alloc, &mut self.names, text, 10)?;
        let tokens = self.macros.expand(&line, &mut self.names)?;
        shown(alloc, &self.names, &tokens)
    }

    /// What comes out as the next tokens are fed.
    fn feed(&mut self, alloc: Global, text: &[u8]) -> Result<Vec<u8>, Refusal> {
        let line = lex(alloc, &mut self.names, text, 10)?;
        let mut out = Vec::new(alloc);
        self.expander
            .feed(&self.macros, line, &mut self.names, &mut out)?;
        shown(alloc, &self.names, &out)
    }

    /// What comes out at the end of what was fed.
    fn finish(&mut self, alloc: Global) -> Result<Vec<u8>, Refusal> {
        let mut out = Vec::new(alloc);
        self.expander
            .finish(&self.macros, &mut self.names, &mut out)?;
        shown(alloc, &self.names, &out)
    }

    /// Does a line of the table. Its answer is what was expanded, if anything was.
    pub fn perform(
        &mut self,
        alloc: Global,
        name: &str,
        text: &str,
    ) -> Result<Option<Vec<u8>>, Refusal> {
        let bytes = with_lines(alloc, text)?;
        match name {
            "new" => *self = Desk::new(alloc)?,
            "define" => define(alloc, &mut self.macros, &mut self.names, &bytes)?,
            "expand" => return Ok(Some(self.expansion(alloc, &bytes)?)),
            "feed" => return Ok(Some(self.feed(alloc, &bytes)?)),
            "finish" => return Ok(Some(self.finish(alloc)?)),
            _ => {}
        }
        Ok(None)
    }
}
