// Initialisers (C90 6.5.7), with a stack of the lists that are open.
ghost use Rattle.std.specs.Prelude.{◌≡◌, ◌≤◌, length};
ghost use Rattle.c65_base.specs.Answers.{Gives};
ghost use Rattle.c65_base.specs.Limits.{limit_of};
ghost use Rattle.c65_base.specs.declared.refusal.Size.TheVariants.{Depth};
ghost use Rattle.c65_tree.specs.View.{expr_of, init_of, maybe};
ghost use Rattle.c65_parse.specs.Reading.{rest_of, blocks_of};
ghost use Rattle.c65_parse_frames.specs.Views.{lists_of, listed_of};
ghost use Rattle.c65_decl.specs.Initialisers;

use crate::here::{expect, is_here, pos_here, too_deep};
use c65_base::Refusal;
use c65_parse::{DEPTH, Parser, parse_assignment_within};
use c65_parse_frames::{InitList, Listed, Mark, enter_list, with_initialiser};
use c65_scan::Token;
use c65_tree::{Expr, Initialiser};
use std::alloc::Global;

/// An expression in so many lists; the count of depth goes on from these.
fn element(parser: &mut Parser, around: usize) -> Result<Expr, Refusal>
    ensures { Gives (λ e. (expr_of e, rest_of parser.new, blocks_of parser.new)) result (Initialisers.element_read (limit_of Depth) around (blocks_of parser.old) (rest_of parser.old)) }
{
    let room = (DEPTH as usize).saturating_sub(around);
    parse_assignment_within(parser, room as u16)
}

/// Whether a list ends behind an initialiser. It passes over a comma, and over the brace.
fn ends_list(parser: &mut Parser) -> Result<bool, Refusal>
    ensures { Gives (λ b. (b, rest_of parser.new, blocks_of parser.new)) result (Initialisers.list_end (blocks_of parser.old) (rest_of parser.old)) }
{
    if is_here(parser, Mark::Comma) {
        parser.take();
        if !is_here(parser, Mark::CloseBrace) {
            return Ok(false);
        }
    }
    expect(parser, Mark::CloseBrace)?;
    Ok(true)
}

/// Ends each list that ends behind this initialiser.
#[tactic(auto, using(crate::proofs::Stacks::lists_innermost, crate::proofs::Stacks::lists_none))]
fn close_lists(
    parser: &mut Parser,
    lists: Vec<InitList>,
    last: Initialiser,
) -> Result<Listed, Refusal>
    ensures { Gives (λ r. (listed_of r, rest_of parser.new, blocks_of parser.new)) result (Initialisers.lists_closed (lists_of lists.items) (init_of last) (blocks_of parser.old) (rest_of parser.old)) }
{
    let mut lists = lists;
    let mut init = last;
    while let Some(list) = lists.pop() {
        let list = with_initialiser(list, init)?;
        if !ends_list(parser)? {
            return Ok(Listed::Open(enter_list(lists, list)?));
        }
        init = Initialiser::list(list.pos, list.items);
    }
    Ok(Listed::Whole(init))
}

/// Begins a list, which needs an initialiser in it.
fn open_list(alloc: Global, parser: &mut Parser, lists: Vec<InitList>) -> Result<Listed, Refusal>
    ensures { Gives (λ r. (listed_of r, rest_of parser.new, blocks_of parser.new)) result (Initialisers.list_begun (limit_of Depth) (lists_of lists.items) (blocks_of parser.old) (rest_of parser.old)) }
{
    if lists.len() > DEPTH as usize - 2 {
        return Err(too_deep());
    }
    let pos = pos_here(parser);
    parser.take();
    let items = Vec::new(alloc);
    let lists = enter_list(lists, InitList { pos, items })?;
    Ok(Listed::Open(lists))
}

fn step(alloc: Global, parser: &mut Parser, lists: Vec<InitList>) -> Result<Listed, Refusal>
    ensures { Gives (λ r. (listed_of r, rest_of parser.new, blocks_of parser.new)) result (Initialisers.initialiser_step (limit_of Depth) (lists_of lists.items) (blocks_of parser.old) (rest_of parser.old)) }
{
    if is_here(parser, Mark::OpenBrace) {
        return open_list(alloc, parser, lists);
    }
    let pos = pos_here(parser);
    let e = element(parser, lists.len())?;
    close_lists(parser, lists, Initialiser::value(pos, e))
}

/// The initialiser that stands here. No reading of a part has more steps than the unit has tokens.
pub fn initialiser(
    alloc: Global,
    parser: &mut Parser,
    unit: &[Token],
) -> Result<Initialiser, Refusal>
    ensures { Gives (λ i. (init_of i, rest_of parser.new, blocks_of parser.new)) result (Initialisers.initialiser_read (limit_of Depth) unit.now (blocks_of parser.old) (rest_of parser.old)) }
{
    let mut lists = Vec::new(alloc);
    for _step in unit {
        let read = step(alloc, parser, lists)?;
        match read {
            Listed::Whole(init) => return Ok(init),
            Listed::Open(next) => lists = next,
        }
    }
    Err(parser.unexpected())
}

/// An initialiser behind `=`, or none.
pub fn optional_init(
    alloc: Global,
    parser: &mut Parser,
    unit: &[Token],
) -> Result<Option<Initialiser>, Refusal>
    ensures { Gives (λ i. (maybe init_of i, rest_of parser.new, blocks_of parser.new)) result (Initialisers.optional_init_read (limit_of Depth) unit.now (blocks_of parser.old) (rest_of parser.old)) }
{
    if !is_here(parser, Mark::Equal) {
        return Ok(None);
    }
    parser.take();
    let init = initialiser(alloc, parser, unit)?;
    Ok(Some(init))
}
