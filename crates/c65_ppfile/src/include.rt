// Lines of #include (C90 6.8.2).
ghost use Rattle.std.specs.Prelude.{◌≡◌, [], IfErr, OnOk, ◌++◌};
ghost use Rattle.c65_scan.specs.Tokens.{spelling_in};
ghost use Rattle.c65_ppline.specs.Causes.{Stops};
ghost use Rattle.c65_ppline.specs.Expansions.{ReadsExpansion};
ghost use Rattle.c65_ppfile.specs.IncludeLines.{IsIncluded};
ghost use Rattle.c65_ppline.specs.Lines;
ghost use Rattle.c65_ppline.specs.Lines.{on_line};
ghost use Rattle.c65_ppfile.specs.IncludeLines;
ghost use Rattle.c65_ppfile.specs.IncludeLines.{whole, closed, angled, marked, replaced, plain, spaced};
ghost use Rattle.c65_ppline.specs.Misfits.{IsMisfit, Reads};

use c65_base::{Names, Refusal, Text};
use c65_lex::{PpKind, PpToken};
use c65_macro::Macros;
use c65_ppline::{Line, Misfit, begins_with, expand, is_mark, is_nothing, spelling_of};
use std::alloc::{AllocError, Global};

/// A file to be included: its name as it stands in the directive, and whether it stands in quotes.
#[derive(Drop)]
pub struct Header {
    pub name: Text,
    pub is_quoted: bool,
}

/// What stands between the first and the last byte of a spelling.
fn inner(spelling: &[u8]) -> &[u8]
    ensures { result.now ≡ IncludeLines.inner spelling.now }
{
    if spelling.len() < 2 {
        return &[];
    }
    &spelling[1..spelling.len() - 1]
}

/// The header of a token that stands for itself: a header name, or a string literal without a prefix.
fn read_whole(alloc: Global, spelling: &[u8]) -> Result<Header, Misfit>
    ensures refused { IfErr result IsMisfit }
    ensures header { Reads (λ h. h) result (whole spelling.now) }
{
    let is_quoted = begins_with(b'"', spelling);
    let is_angled = begins_with(b'<', spelling);
    let name = inner(spelling);
    if name.is_empty() || !(is_quoted || is_angled) {
        return Err(Misfit::Wrong);
    }
    Ok(Header {
        name: Text::copy_of(alloc, name)?,
        is_quoted,
    })
}

/// One space, where white space stands before a token that is not the first.
fn add_space(name: &mut Vec<u8>, space: bool) -> Result<(), AllocError>
    ensures { OnOk result (name.new.items ≡ spaced name.old.items space) }
{
    if space && !name.is_empty() {
        name.push(b' ')?;
    }
    Ok(())
}

/// A token of a name.
fn add_token(names: &Names, name: &mut Vec<u8>, token: &PpToken) -> Result<(), AllocError>
    ensures { OnOk result (name.new.items ≡ spaced name.old.items token.now.space ++ spelling_in names.now token.now.spelling) }
{
    add_space(name, token.space)?;
    name.extend_from_slice(spelling_of(names, token.spelling))?;
    Ok(())
}

/// The header whose name is followed by > and these tokens.
fn close(name: Vec<u8>, tokens: &[PpToken]) -> Result<Header, Misfit>
    ensures refused { IfErr result IsMisfit }
    ensures header { Reads (λ h. h) result (closed name.items tokens.now) }
{
    if name.is_empty() || !is_nothing(tokens) {
        return Err(Misfit::Wrong);
    }
    Ok(Header {
        name: Text::from_vec(name),
        is_quoted: false,
    })
}

/// The header whose name stands in tokens from behind a < up to a >. White space between two tokens is one space.
fn read_angled(alloc: Global, names: &Names, tokens: &[PpToken]) -> Result<Header, Misfit>
    ensures refused { IfErr result IsMisfit }
    ensures header { Reads (λ h. h) result (angled names.now [] tokens.now) }
{
    let mut name = Vec::new(alloc);
    let mut rest = tokens;
    while let Some((token, more)) = rest.split_first() {
        if is_mark(names, token, b">") {
            return close(name, more);
        }
        add_token(names, &mut name, token)?;
        rest = more;
    }
    Err(Misfit::Short)
}

/// The header of a token that stands alone.
fn read_alone(
    alloc: Global,
    names: &Names,
    first: &PpToken,
    rest: &[PpToken],
) -> Result<Header, Misfit>
    ensures refused { IfErr result IsMisfit }
    ensures header { Reads (λ h. h) result (plain names.now first.now rest.now) }
{
    if !is_nothing(rest) {
        return Err(Misfit::Wrong);
    }
    read_whole(alloc, spelling_of(names, first.spelling))
}

/// The header of tokens that begin with a punctuator.
fn read_marked(
    alloc: Global,
    names: &Names,
    first: &PpToken,
    rest: &[PpToken],
) -> Result<Header, Misfit>
    ensures refused { IfErr result IsMisfit }
    ensures header { Reads (λ h. h) result (marked names.now first.now rest.now) }
{
    if is_mark(names, first, b"<") {
        read_angled(alloc, names, rest)
    } else {
        Err(Misfit::Wrong)
    }
}

/// The header of tokens that were replaced.
fn read_replaced(alloc: Global, names: &Names, tokens: &[PpToken]) -> Result<Header, Misfit>
    ensures refused { IfErr result IsMisfit }
    ensures header { Reads (λ h. h) result (replaced names.now tokens.now) }
{
    let Some((first, rest)) = tokens.split_first() else {
        return Err(Misfit::Short);
    };
    match first.kind {
        PpKind::Text => read_alone(alloc, names, first, rest),
        PpKind::Punct => read_marked(alloc, names, first, rest),
        _ => Err(Misfit::Wrong),
    }
}

fn is_header(token: &PpToken) -> bool
    ensures { result ≡ IncludeLines.is_header token.now }
{
    match token.kind {
        PpKind::Header => true,
        _ => false,
    }
}

/// The header of a line without a header name, whose macros are replaced.
fn read_expanded(
    alloc: Global,
    macros: &Macros,
    names: &mut Names,
    line: &Line,
) -> Result<Header, Refusal>
    ensures stops { IfErr result Stops }
    ensures exact { ReadsExpansion (λ h. h) (λ now ts. on_line line.now.hash line.now.cut (replaced now ts)) macros.now names.old (Lines.rest line.now) names.new result }
{
    match expand(macros, line.rest(), names) {
        Ok(expanded) => line.answer(read_replaced(alloc, names, &expanded)),
        Err(refusal) => Err(refusal),
    }
}

/// The header of an #include line.
pub fn include_line(
    alloc: Global,
    macros: &Macros,
    names: &mut Names,
    line: Line,
) -> Result<Header, Refusal>
    ensures stops { IfErr result Stops }
    ensures exact { IsIncluded macros.now names.old line names.new result }
{
    match line.rest().split_first() {
        Some((first, rest)) if is_header(first) => {
            line.answer(read_alone(alloc, names, first, rest))
        }
        Some(_) if line.is_whole() => read_expanded(alloc, macros, names, &line),
        _ => Err(line.refusal(Misfit::Short)),
    }
}
