// Units (C90 6.7).
ghost use Rattle.std.specs.Prelude.{◌≡◌, ◌<◌, length, IfOk};
ghost use Rattle.c65_base.specs.Answers.{Gives};
ghost use Rattle.c65_base.specs.Limits.{limit_of};
ghost use Rattle.c65_base.specs.declared.refusal.Size.TheVariants.{Depth};
ghost use Rattle.c65_tree.specs.View.{declarator_of, item_of, specifiers_of, unit_of};
ghost use Rattle.c65_parse.specs.Reading.{rest_of, blocks_of};
ghost use Rattle.c65_decl.specs.Units;
ghost use Rattle.c65_decl.specs.Units.{items_of};

use crate::declaration::{declaration_from, empty_declaration};
use crate::function::read_function;
use crate::here::{is_here, sign_here};
use crate::names::{named_declarator, naming_of};
use crate::trees::is_empty;
use crate::words::goes_on;
use c65_base::{Code, Pos, Refusal};
use c65_parse::{Parser, parse_specifiers};
use c65_parse_frames::Mark;
use c65_scan::Token;
use c65_tree::{Declarator, Item, Specifiers, Unit, push_last};
use std::alloc::{AllocError, Global};

/// The item with these specifiers and this declarator. One without specifiers is a definition.
fn item_from(
    alloc: Global,
    parser: &mut Parser,
    unit: &[Token],
    specifiers: Specifiers,
    declarator: Declarator,
    may_declare: bool,
) -> Result<Item, Refusal>
    ensures { Gives (λ i. (item_of i, rest_of parser.new, blocks_of parser.new)) result (Units.item_from (limit_of Depth) unit.now (specifiers_of specifiers) (declarator_of declarator) may_declare (blocks_of parser.old) (rest_of parser.old)) }
{
    if may_declare && goes_on(sign_here(parser)) {
        let decl = declaration_from(alloc, parser, unit, specifiers, declarator)?;
        return Ok(Item::Decl(decl));
    }
    let function = read_function(alloc, parser, unit, specifiers, declarator)?;
    Ok(Item::Function(function))
}

/// The declaration or the definition that stands here.
fn read_item(alloc: Global, parser: &mut Parser, unit: &[Token]) -> Result<Item, Refusal>
    ensures { Gives (λ i. (item_of i, rest_of parser.new, blocks_of parser.new)) result (Units.item_read (limit_of Depth) unit.now (blocks_of parser.old) (rest_of parser.old)) }
{
    let specifiers = parse_specifiers(parser)?;
    let has_specifiers = !is_empty(&specifiers);
    if has_specifiers && is_here(parser, Mark::Semicolon) {
        return Ok(Item::Decl(empty_declaration(alloc, parser, specifiers)));
    }
    let declarator = named_declarator(parser, naming_of(&specifiers))?;
    item_from(alloc, parser, unit, specifiers, declarator, has_specifiers)
}

fn with_item(items: Vec<Item>, item: Item) -> Result<Vec<Item>, AllocError>
    ensures { IfOk result (λ r. items_of r.items ≡ Units.with_item (items_of items.items) (item_of item)) }
{
    let mut items = items;
    push_last(&mut items, item)?;
    Ok(items)
}

/// The items from here to the end, one at least.
fn all_items(alloc: Global, parser: &mut Parser, unit: &[Token]) -> Result<Vec<Item>, Refusal>
    ensures { Gives (λ r. items_of r.items) result (Units.items_read (limit_of Depth) unit.now (blocks_of parser.old) (rest_of parser.old)) }
{
    let mut items = Vec::new(alloc);
    for _step in unit {
        let item = read_item(alloc, parser, unit)?;
        items = with_item(items, item)?;
        if is_here(parser, Mark::End) {
            return Ok(items);
        }
    }
    Err(parser.unexpected())
}

/// The unit whose tokens these are; they end with an `End`.
///
/// It refuses the first token with which no unit goes on: `Assembly` at `asm` and `__asm__`, `Syntax`
/// elsewhere; and `TooLarge` of `Depth` where only a deeper unit goes on.
pub fn parse_unit(alloc: Global, tokens: &[Token]) -> Result<Unit, Refusal>
    ensures { Gives unit_of result (Units.unit_read (limit_of Depth) tokens.now) }
{
    if tokens.is_empty() {
        return Err(Refusal::fault(Code::Syntax, Pos { file: 0, line: 1 }));
    }
    let mut parser = Parser::new(alloc, tokens);
    let items = all_items(alloc, &mut parser, tokens)?;
    Ok(Unit { items })
}
