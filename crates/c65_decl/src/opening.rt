// What stands at a statement's place (C90 6.6).
ghost use Rattle.std.specs.Prelude.{◌≡◌};
ghost use Rattle.c65_base.specs.Answers.{Gives};
ghost use Rattle.c65_base.specs.Limits.{limit_of};
ghost use Rattle.c65_base.specs.declared.refusal.Size.TheVariants.{Depth};
ghost use Rattle.c65_parse.specs.Reading.{rest_of, blocks_of};
ghost use Rattle.c65_parse_frames.specs.Views.{begun_of};
ghost use Rattle.c65_decl.specs.Openings;

use crate::declaration::declaration;
use crate::expression::{case_value, optional_expr, test};
use crate::here::{
    colon_follows, expect, expect_name, is_type_here, pos_here, sign_here, too_deep,
};
use crate::words::{Word, is_evaluated, word_of};
use c65_base::{Pos, Refusal};
use c65_parse::{DEPTH, Parser};
use c65_parse_frames::{
    Begun, Frame, Head, Mark, Place, Sign, is_label, is_mark, least_depth, starts_declaration,
};
use c65_scan::Token;
use c65_tree::Stmt;
use std::alloc::Global;

/// A label and its colon (C90 6.6.1).
fn begin_label(parser: &mut Parser, pos: Pos) -> Result<Begun, Refusal>
    ensures { Gives (λ b. (begun_of b, rest_of parser.new, blocks_of parser.new)) result (Openings.label_begun pos (blocks_of parser.old) (rest_of parser.old)) }
{
    let name = expect_name(parser)?;
    expect(parser, Mark::Colon)?;
    Ok(Begun::Open(Frame::Head(Head::Label(pos, name))))
}

/// Behind `case`.
fn begin_case(parser: &mut Parser, pos: Pos) -> Result<Begun, Refusal>
    ensures { Gives (λ b. (begun_of b, rest_of parser.new, blocks_of parser.new)) result (Openings.case_begun (limit_of Depth) pos (blocks_of parser.old) (rest_of parser.old)) }
{
    let e = case_value(parser)?;
    Ok(Begun::Open(Frame::Head(Head::Case(pos, e))))
}

/// Behind `default`.
fn begin_default(parser: &mut Parser, pos: Pos) -> Result<Begun, Refusal>
    ensures { Gives (λ b. (begun_of b, rest_of parser.new, blocks_of parser.new)) result (Openings.default_begun pos (blocks_of parser.old) (rest_of parser.old)) }
{
    expect(parser, Mark::Colon)?;
    Ok(Begun::Open(Frame::Head(Head::Default(pos))))
}

/// Behind `if` (C90 6.6.4.1).
fn begin_if(parser: &mut Parser, pos: Pos) -> Result<Begun, Refusal>
    ensures { Gives (λ b. (begun_of b, rest_of parser.new, blocks_of parser.new)) result (Openings.if_begun (limit_of Depth) pos (blocks_of parser.old) (rest_of parser.old)) }
{
    let e = test(parser)?;
    Ok(Begun::Open(Frame::Then(pos, e)))
}

/// Behind `switch` (C90 6.6.4.2).
fn begin_switch(parser: &mut Parser, pos: Pos) -> Result<Begun, Refusal>
    ensures { Gives (λ b. (begun_of b, rest_of parser.new, blocks_of parser.new)) result (Openings.switch_begun (limit_of Depth) pos (blocks_of parser.old) (rest_of parser.old)) }
{
    let e = test(parser)?;
    Ok(Begun::Open(Frame::Head(Head::Switch(pos, e))))
}

/// Behind `while` (C90 6.6.5.1).
fn begin_while(parser: &mut Parser, pos: Pos) -> Result<Begun, Refusal>
    ensures { Gives (λ b. (begun_of b, rest_of parser.new, blocks_of parser.new)) result (Openings.while_begun (limit_of Depth) pos (blocks_of parser.old) (rest_of parser.old)) }
{
    let e = test(parser)?;
    Ok(Begun::Open(Frame::Head(Head::While(pos, e))))
}

/// Behind `for` (C90 6.6.5.3).
fn begin_for(parser: &mut Parser, pos: Pos) -> Result<Begun, Refusal>
    ensures { Gives (λ b. (begun_of b, rest_of parser.new, blocks_of parser.new)) result (Openings.for_begun (limit_of Depth) pos (blocks_of parser.old) (rest_of parser.old)) }
{
    expect(parser, Mark::OpenParen)?;
    let first = optional_expr(parser, Mark::Semicolon)?;
    let test = match optional_expr(parser, Mark::Semicolon) {
        Ok(test) => test,
        Err(refusal) => {
            drop(first);
            return Err(refusal);
        }
    };
    match optional_expr(parser, Mark::CloseParen) {
        Ok(step) => Ok(Begun::Open(Frame::Head(Head::For(pos, first, test, step)))),
        Err(refusal) => {
            drop((first, test));
            Err(refusal)
        }
    }
}

/// Behind `goto` (C90 6.6.6.1).
fn begin_goto(parser: &mut Parser, pos: Pos) -> Result<Begun, Refusal>
    ensures { Gives (λ b. (begun_of b, rest_of parser.new, blocks_of parser.new)) result (Openings.goto_begun pos (blocks_of parser.old) (rest_of parser.old)) }
{
    let name = expect_name(parser)?;
    expect(parser, Mark::Semicolon)?;
    Ok(Begun::Whole(Stmt::goto(pos, name)))
}

/// Behind `continue` (C90 6.6.6.2).
fn begin_continue(parser: &mut Parser, pos: Pos) -> Result<Begun, Refusal>
    ensures { Gives (λ b. (begun_of b, rest_of parser.new, blocks_of parser.new)) result (Openings.continue_begun pos (blocks_of parser.old) (rest_of parser.old)) }
{
    expect(parser, Mark::Semicolon)?;
    Ok(Begun::Whole(Stmt::continue_loop(pos)))
}

/// Behind `break` (C90 6.6.6.3).
fn begin_break(parser: &mut Parser, pos: Pos) -> Result<Begun, Refusal>
    ensures { Gives (λ b. (begun_of b, rest_of parser.new, blocks_of parser.new)) result (Openings.break_begun pos (blocks_of parser.old) (rest_of parser.old)) }
{
    expect(parser, Mark::Semicolon)?;
    Ok(Begun::Whole(Stmt::break_out(pos)))
}

/// Behind `return` (C90 6.6.6.4).
fn begin_return(parser: &mut Parser, pos: Pos) -> Result<Begun, Refusal>
    ensures { Gives (λ b. (begun_of b, rest_of parser.new, blocks_of parser.new)) result (Openings.return_begun (limit_of Depth) pos (blocks_of parser.old) (rest_of parser.old)) }
{
    let value = optional_expr(parser, Mark::Semicolon)?;
    Ok(Begun::Whole(Stmt::give_back(pos, value)))
}

/// An expression statement, or the empty one (C90 6.6.3).
fn begin_eval(parser: &mut Parser, pos: Pos) -> Result<Begun, Refusal>
    ensures { Gives (λ b. (begun_of b, rest_of parser.new, blocks_of parser.new)) result (Openings.eval_begun (limit_of Depth) pos (blocks_of parser.old) (rest_of parser.old)) }
{
    let e = optional_expr(parser, Mark::Semicolon)?;
    Ok(Begun::Whole(Stmt::eval(pos, e)))
}

/// Behind the brace that begins a block (C90 6.6.2).
fn begin_block(alloc: Global, parser: &mut Parser, pos: Pos) -> Result<Begun, Refusal>
    ensures { Gives (λ b. (begun_of b, rest_of parser.new, blocks_of parser.new)) result (Openings.block_begun pos (blocks_of parser.old) (rest_of parser.old)) }
{
    parser.open()?;
    let decls = Vec::new(alloc);
    let stmts = Vec::new(alloc);
    Ok(Begun::Open(Frame::Block(pos, decls, stmts)))
}

/// Behind the word or the brace that begins a statement.
fn begin_behind(alloc: Global, parser: &mut Parser, word: Word, pos: Pos) -> Result<Begun, Refusal>
    ensures { Gives (λ b. (begun_of b, rest_of parser.new, blocks_of parser.new)) result (Openings.begun_behind (limit_of Depth) word pos (blocks_of parser.old) (rest_of parser.old)) }
{
    match word {
        Word::Case => begin_case(parser, pos),
        Word::Default => begin_default(parser, pos),
        Word::If => begin_if(parser, pos),
        Word::Switch => begin_switch(parser, pos),
        Word::While => begin_while(parser, pos),
        Word::Do => Ok(Begun::Open(Frame::Do(pos))),
        Word::For => begin_for(parser, pos),
        Word::Goto => begin_goto(parser, pos),
        Word::Continue => begin_continue(parser, pos),
        Word::Break => begin_break(parser, pos),
        Word::Return => begin_return(parser, pos),
        Word::OpenBrace => begin_block(alloc, parser, pos),
    }
}

/// The statement that begins here with this word, if with one.
fn begin_word(
    alloc: Global,
    parser: &mut Parser,
    word: Option<Word>,
    pos: Pos,
) -> Result<Begun, Refusal>
    ensures { Gives (λ b. (begun_of b, rest_of parser.new, blocks_of parser.new)) result (Openings.word_begun (limit_of Depth) word pos (blocks_of parser.old) (rest_of parser.old)) }
{
    match word {
        Some(word) => {
            parser.take();
            begin_behind(alloc, parser, word, pos)
        }
        None => Err(parser.unexpected()),
    }
}

/// The statement that begins here.
fn begin_statement(
    alloc: Global,
    parser: &mut Parser,
    sign: Sign,
    label: bool,
) -> Result<Begun, Refusal>
    ensures { Gives (λ b. (begun_of b, rest_of parser.new, blocks_of parser.new)) result (Openings.statement_begun (limit_of Depth) sign label (blocks_of parser.old) (rest_of parser.old)) }
{
    let pos = pos_here(parser);
    if label {
        return begin_label(parser, pos);
    }
    if is_evaluated(sign) {
        return begin_eval(parser, pos);
    }
    begin_word(alloc, parser, word_of(sign), pos)
}

/// The end of the innermost block.
fn close(parser: &mut Parser) -> Begun
    ensures { (begun_of result, rest_of parser.new, blocks_of parser.new) ≡ Openings.closed_here (blocks_of parser.old) (rest_of parser.old) }
{
    parser.take();
    parser.close();
    Begun::Close
}

fn begin_declaration(alloc: Global, parser: &mut Parser, unit: &[Token]) -> Result<Begun, Refusal>
    ensures { Gives (λ b. (begun_of b, rest_of parser.new, blocks_of parser.new)) result (Openings.declaration_begun (limit_of Depth) unit.now (blocks_of parser.old) (rest_of parser.old)) }
{
    let decl = declaration(alloc, parser, unit)?;
    Ok(Begun::Decl(decl))
}

/// What stands here, at this place.
pub fn begin(
    alloc: Global,
    parser: &mut Parser,
    unit: &[Token],
    place: Place,
) -> Result<Begun, Refusal>
    ensures { Gives (λ b. (begun_of b, rest_of parser.new, blocks_of parser.new)) result (Openings.begun_at (limit_of Depth) unit.now place (blocks_of parser.old) (rest_of parser.old)) }
{
    let sign = sign_here(parser);
    let is_type = is_type_here(parser);
    let colon = colon_follows(parser);
    let label = is_label(sign, is_type, colon);
    if place.in_block && is_mark(Mark::CloseBrace, sign) {
        return Ok(close(parser));
    }
    if place.takes_declarations && starts_declaration(sign, is_type, colon) {
        return begin_declaration(alloc, parser, unit);
    }
    let least = least_depth(sign, label);
    let limit = DEPTH as usize;
    if least > limit || place.around > limit - least {
        return Err(too_deep());
    }
    begin_statement(alloc, parser, sign, label)
}
