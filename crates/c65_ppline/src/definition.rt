// Lines of #define and #undef (C90 6.8.3).
ghost use Rattle.std.specs.Prelude.{◌≡◌, [], IfErr, Ok, Some, None};
ghost use Rattle.c65_macro.specs.Definitions;
ghost use Rattle.c65_ppline.specs.Causes.{Stops};
ghost use Rattle.c65_ppline.specs.DefineLines;
ghost use Rattle.c65_ppline.specs.DefineLines.{parts_of, with_parameter, parameters, parameter_list, shape, free_name, definition, removal, only_name};
ghost use Rattle.c65_ppline.specs.MacroLines;
ghost use Rattle.c65_ppline.specs.Misfits.{IsMisfit, Reads};
ghost use Rattle.c65_base.specs.Answers.{Gives};

use crate::calls::define;
use crate::line::{Line, Misfit};
use crate::marks::{behind_first, is_mark, is_name, is_nothing, is_word};
use c65_base::{Code, Name, Names, Pos, Refusal, Size};
use c65_lex::{PpToken, PpTokens};
use c65_macro::{Macro, Macros, Params};
use std::alloc::Global;

/// What stands behind the name of a definition.
#[derive(Drop)]
struct Shape {
    params: Option<Vec<Name>>,
    body: Vec<PpToken>,
}

/// A macro with these parameters and this body.
fn with_parameters(alloc: Global, params: Vec<Name>, body: &[PpToken]) -> Result<Shape, Misfit>
    ensures refused { IfErr result IsMisfit }
    ensures parts { Reads parts_of result (Ok (Some params.items, body.now)) }
{
    Ok(Shape {
        params: Some(params),
        body: Vec::from_slice(alloc, body)?,
    })
}

/// One more parameter. No two have one name.
fn add_parameter(params: &mut Vec<Name>, token: &PpToken) -> Result<(), Misfit>
    ensures refused { IfErr result IsMisfit }
    ensures added { Reads (λ _. params.new.items) result (with_parameter params.old.items token.now) }
{
    if !is_name(token) || params.contains(&token.spelling) {
        return Err(Misfit::Wrong);
    }
    if params.len() as u64 >= Size::MacroArguments.number() {
        return Err(Misfit::Stopped(Refusal::TooLarge {
            limit: Size::MacroArguments,
            value: Size::MacroArguments.number() + 1,
        }));
    }
    params.push(token.spelling)?;
    Ok(())
}

/// Reads parameters up to their closing parenthesis, and the body behind it.
fn read_parameters(alloc: Global, names: &Names, tokens: &[PpToken]) -> Result<Shape, Misfit>
    ensures refused { IfErr result IsMisfit }
    ensures parts { Reads parts_of result (parameters names.now [] tokens.now) }
{
    let mut params = Vec::new(alloc);
    let mut rest = tokens;
    while let Some((name, behind)) = rest.split_first() {
        match add_parameter(&mut params, name) {
            Ok(()) => {}
            Err(misfit) => return Err(misfit),
        }
        let Some((mark, more)) = behind.split_first() else {
            return Err(Misfit::Short);
        };
        if is_mark(names, mark, b")") {
            return with_parameters(alloc, params, more);
        }
        if !is_mark(names, mark, b",") {
            return Err(Misfit::Wrong);
        }
        rest = more;
    }
    Err(Misfit::Short)
}

/// Reads what stands behind the opening parenthesis of a list of parameters, which may be empty.
fn read_list(alloc: Global, names: &Names, tokens: &[PpToken]) -> Result<Shape, Misfit>
    ensures refused { IfErr result IsMisfit }
    ensures parts { Reads parts_of result (parameter_list names.now tokens.now) }
{
    match tokens.split_first() {
        Some((first, body)) if is_mark(names, first, b")") => {
            with_parameters(alloc, Vec::new(alloc), body)
        }
        Some(_) => read_parameters(alloc, names, tokens),
        None => Err(Misfit::Short),
    }
}

/// A macro without parameters.
fn without_parameters(alloc: Global, body: &[PpToken]) -> Result<Shape, Misfit>
    ensures refused { IfErr result IsMisfit }
    ensures parts { Reads parts_of result (Ok (None, body.now)) }
{
    Ok(Shape {
        params: None,
        body: Vec::from_slice(alloc, body)?,
    })
}

/// What stands behind the name of a definition: parameters where a parenthesis follows at once, and a body.
fn read_shape(alloc: Global, names: &Names, tokens: &[PpToken]) -> Result<Shape, Misfit>
    ensures refused { IfErr result IsMisfit }
    ensures parts { Reads parts_of result (shape names.now tokens.now) }
{
    match tokens.split_first() {
        Some((first, rest)) if is_mark(names, first, b"(") && !first.space => {
            read_list(alloc, names, rest)
        }
        _ => without_parameters(alloc, tokens),
    }
}

/// Whether a name may be defined and removed.
fn is_free(macros: &Macros, names: &Names, token: &PpToken) -> bool
    ensures { result ≡ DefineLines.is_free macros.now names.now token.now }
{
    !macros.is_predefined(token.spelling) && !is_word(names, token, b"defined")
}

/// The name that a line defines or removes, which stands first.
fn read_name(macros: &Macros, names: &Names, tokens: &[PpToken]) -> Result<PpToken, Misfit>
    ensures refused { IfErr result IsMisfit }
    ensures name { Reads (λ t. t) result (free_name macros.now names.now tokens.now) }
{
    let Some((first, _)) = tokens.split_first() else {
        return Err(Misfit::Short);
    };
    if !is_name(first) {
        return Err(Misfit::Wrong);
    }
    if !is_free(macros, names, first) {
        return Err(Misfit::Stopped(Refusal::fault(Code::PredefinedName, first.pos)));
    }
    Ok(*first)
}

/// A macro of these parts.
fn macro_of(name: Name, shape: Shape) -> Macro
    ensures { result ≡ DefineLines.macro_of name (parts_of shape) }
{
    let Shape { params, body } = shape;
    let params = match params {
        Some(params) => Some(Params::from_vec(params)),
        None => None,
    };
    Macro {
        name,
        params,
        body: PpTokens::from_vec(body),
    }
}

/// What a #define line defines, and where its name stands.
fn read_definition(
    alloc: Global,
    macros: &Macros,
    names: &Names,
    tokens: &[PpToken],
) -> Result<(Macro, Pos), Misfit>
    ensures refused { IfErr result IsMisfit }
    ensures definition { Reads (λ d. d) result (definition macros.now names.now tokens.now) }
{
    let name = match read_name(macros, names, tokens) {
        Ok(name) => name,
        Err(misfit) => return Err(misfit),
    };
    match read_shape(alloc, names, behind_first(tokens)) {
        Ok(shape) => Ok((macro_of(name.spelling, shape), name.pos)),
        Err(misfit) => Err(misfit),
    }
}

/// Does a #define line.
pub fn define_line(
    alloc: Global,
    macros: &mut Macros,
    names: &Names,
    line: Line,
) -> Result<(), Refusal>
    ensures stops { IfErr result Stops }
    ensures exact { Gives (λ _. macros.new) result (MacroLines.defined macros.old names.now line) }
{
    match line.answer(read_definition(alloc, macros, names, line.rest())) {
        Ok((item, pos)) => define(macros, item, pos),
        Err(refusal) => Err(refusal),
    }
}

/// The name that an #undef line removes.
fn read_removal(macros: &Macros, names: &Names, tokens: &[PpToken]) -> Result<Name, Misfit>
    ensures refused { IfErr result IsMisfit }
    ensures name { Reads (λ n. n) result (removal macros.now names.now tokens.now) }
{
    match read_name(macros, names, tokens) {
        Ok(name) if is_nothing(behind_first(tokens)) => Ok(name.spelling),
        Ok(_) => Err(Misfit::Wrong),
        Err(misfit) => Err(misfit),
    }
}

/// Does an #undef line.
pub fn undef_line(macros: &mut Macros, names: &Names, line: Line) -> Result<(), Refusal>
    ensures stops { IfErr result Stops }
    ensures exact { Gives (λ _. macros.new) result (MacroLines.undefined macros.old names.now line) }
{
    match line.answer(read_removal(macros, names, line.rest())) {
        Ok(name) => {
            let _ = macros.undef(name);
            Ok(())
        }
        Err(refusal) => Err(refusal),
    }
}

/// The only name on a line of #ifdef or #ifndef.
pub fn read_only_name(tokens: &[PpToken]) -> Result<Name, Misfit>
    ensures refused { IfErr result IsMisfit }
    ensures name { Reads (λ n. n) result (only_name tokens.now) }
{
    let Some((first, rest)) = tokens.split_first() else {
        return Err(Misfit::Short);
    };
    if is_name(first) && is_nothing(rest) {
        Ok(first.spelling)
    } else {
        Err(Misfit::Wrong)
    }
}
