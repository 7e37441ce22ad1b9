// Statements (C90 6.6), with a stack of those that are open.
ghost use Rattle.std.specs.Prelude.{◌≡◌};
ghost use Rattle.c65_base.specs.Answers.{Gives};
ghost use Rattle.c65_base.specs.Limits.{limit_of};
ghost use Rattle.c65_base.specs.declared.refusal.Size.TheVariants.{Depth};
ghost use Rattle.c65_tree.specs.View.{expr_of, stmt_of};
ghost use Rattle.c65_parse.specs.Reading.{rest_of, blocks_of};
ghost use Rattle.c65_parse_frames.specs.Frames.{option_stmt};
ghost use Rattle.c65_parse_frames.specs.Views.{frame_of, stack_of, plugged_of, begun_of, reached_of};
ghost use Rattle.c65_decl.specs.Statements;

use crate::expression::test;
use crate::here::{expect, is_here};
use crate::opening::begin;
use c65_base::{Pos, Refusal};
use c65_parse::Parser;
use c65_parse_frames::{
    Begun, Frame, Head, Mark, Plugged, Reached, block_of, complete, enter, place_in,
    with_declaration, with_statement,
};
use c65_scan::Token;
use c65_tree::{Expr, Stmt};
use std::alloc::Global;

/// An `if` behind the statement that it holds, which an `else` may follow (C90 6.6.4.1).
fn plug_then(
    alloc: Global,
    parser: &mut Parser,
    pos: Pos,
    e: Expr,
    stmt: Stmt,
) -> Result<Plugged, Refusal>
    ensures { Gives (λ r. (plugged_of r, rest_of parser.new, blocks_of parser.new)) result (Statements.then_plugged pos (expr_of e) (stmt_of stmt) (blocks_of parser.old) (rest_of parser.old)) }
{
    if is_here(parser, Mark::Else) {
        parser.take();
        return Ok(Plugged::Open(Frame::Head(Head::Else(pos, e, stmt))));
    }
    Ok(Plugged::Whole(Stmt::if_then(alloc, pos, e, stmt)?))
}

/// A `do` behind the statement that it holds (C90 6.6.5.2).
fn plug_do(alloc: Global, parser: &mut Parser, pos: Pos, stmt: Stmt) -> Result<Plugged, Refusal>
    ensures { Gives (λ r. (plugged_of r, rest_of parser.new, blocks_of parser.new)) result (Statements.do_plugged (limit_of Depth) pos (stmt_of stmt) (blocks_of parser.old) (rest_of parser.old)) }
{
    match expect(parser, Mark::While) {
        Ok(()) => {}
        Err(refusal) => {
            drop(stmt);
            return Err(refusal);
        }
    }
    let e = match test(parser) {
        Ok(e) => e,
        Err(refusal) => {
            drop(stmt);
            return Err(refusal);
        }
    };
    match expect(parser, Mark::Semicolon) {
        Ok(()) => Ok(Plugged::Whole(Stmt::do_while(alloc, pos, stmt, e)?)),
        Err(refusal) => {
            drop((stmt, e));
            Err(refusal)
        }
    }
}

/// The frame with this statement in its place.
fn plug(alloc: Global, parser: &mut Parser, frame: Frame, stmt: Stmt) -> Result<Plugged, Refusal>
    ensures { Gives (λ r. (plugged_of r, rest_of parser.new, blocks_of parser.new)) result (Statements.plugged (limit_of Depth) (frame_of frame) (stmt_of stmt) (blocks_of parser.old) (rest_of parser.old)) }
{
    match frame {
        Frame::Head(head) => Ok(Plugged::Whole(complete(alloc, head, stmt)?)),
        Frame::Block(pos, decls, stmts) => {
            Ok(Plugged::Open(with_statement(pos, decls, stmts, stmt)?))
        }
        Frame::Then(pos, e) => plug_then(alloc, parser, pos, e, stmt),
        Frame::Do(pos) => plug_do(alloc, parser, pos, stmt),
    }
}

/// Where the reading stands behind this statement.
#[tactic(auto, using(crate::proofs::Stacks::frames_innermost, crate::proofs::Stacks::frames_none))]
fn plug_all(
    alloc: Global,
    parser: &mut Parser,
    frames: Vec<Frame>,
    last: Stmt,
) -> Result<Reached, Refusal>
    ensures { Gives (λ r. (reached_of r, rest_of parser.new, blocks_of parser.new)) result (Statements.all_plugged (limit_of Depth) (stack_of frames.items) (stmt_of last) (blocks_of parser.old) (rest_of parser.old)) }
{
    let mut frames = frames;
    let mut stmt = last;
    while let Some(frame) = frames.pop() {
        let plugged = plug(alloc, parser, frame, stmt)?;
        match plugged {
            Plugged::Whole(whole) => stmt = whole,
            Plugged::Open(frame) => return Ok(Reached::Need(enter(frames, frame)?)),
        }
    }
    Ok(Reached::End(stmt))
}

/// Where the reading stands behind the block, if there is one.
fn plug_block(
    alloc: Global,
    parser: &mut Parser,
    frames: Vec<Frame>,
    block: Option<Stmt>,
) -> Result<Reached, Refusal>
    ensures { Gives (λ r. (reached_of r, rest_of parser.new, blocks_of parser.new)) result (Statements.block_plugged (limit_of Depth) (stack_of frames.items) (option_stmt block) (blocks_of parser.old) (rest_of parser.old)) }
{
    match block {
        Some(stmt) => plug_all(alloc, parser, frames, stmt),
        None => Err(parser.unexpected()),
    }
}

/// Ends the innermost block.
#[tactic(auto, using(crate::proofs::Stacks::frames_innermost, crate::proofs::Stacks::frames_none))]
fn close_block(alloc: Global, parser: &mut Parser, frames: Vec<Frame>) -> Result<Reached, Refusal>
    ensures { Gives (λ r. (reached_of r, rest_of parser.new, blocks_of parser.new)) result (Statements.block_closed (limit_of Depth) (stack_of frames.items) (blocks_of parser.old) (rest_of parser.old)) }
{
    let mut frames = frames;
    match frames.pop() {
        Some(frame) => plug_block(alloc, parser, frames, block_of(frame)),
        None => Err(parser.unexpected()),
    }
}

fn step(
    alloc: Global,
    parser: &mut Parser,
    unit: &[Token],
    frames: Vec<Frame>,
) -> Result<Reached, Refusal>
    ensures { Gives (λ r. (reached_of r, rest_of parser.new, blocks_of parser.new)) result (Statements.statement_step (limit_of Depth) unit.now (stack_of frames.items) (blocks_of parser.old) (rest_of parser.old)) }
{
    let place = place_in(&frames);
    match begin(alloc, parser, unit, place)? {
        Begun::Open(frame) => Ok(Reached::Need(enter(frames, frame)?)),
        Begun::Decl(decl) => Ok(Reached::Need(with_declaration(frames, decl)?)),
        Begun::Whole(stmt) => plug_all(alloc, parser, frames, stmt),
        Begun::Close => close_block(alloc, parser, frames),
    }
}

/// The statement that stands here.
pub fn statement(alloc: Global, parser: &mut Parser, unit: &[Token]) -> Result<Stmt, Refusal>
    ensures { Gives (λ s. (stmt_of s, rest_of parser.new, blocks_of parser.new)) result (Statements.statement_read (limit_of Depth) unit.now (blocks_of parser.old) (rest_of parser.old)) }
{
    let mut frames = Vec::new(alloc);
    for _step in unit {
        let read = step(alloc, parser, unit, frames)?;
        match read {
            Reached::End(stmt) => return Ok(stmt),
            Reached::Need(next) => frames = next,
        }
    }
    Err(parser.unexpected())
}
