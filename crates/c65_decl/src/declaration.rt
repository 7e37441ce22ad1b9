// Declarations (C90 6.5).
ghost use Rattle.std.specs.Prelude.{◌≡◌, IfOk};
ghost use Rattle.c65_base.specs.Answers.{Gives};
ghost use Rattle.c65_base.specs.Limits.{limit_of};
ghost use Rattle.c65_base.specs.declared.refusal.Size.TheVariants.{Depth};
ghost use Rattle.c65_tree.specs.View.{decl_of, declarator_of, specifiers_of, init_of, maybe};
ghost use Rattle.c65_parse.specs.Reading.{rest_of, blocks_of};
ghost use Rattle.c65_decl.specs.Decls;
ghost use Rattle.c65_decl.specs.Decls.{declared_of, decls_of};

use crate::here::{begins_specifiers, expect, is_here};
use crate::initialiser::optional_init;
use crate::names::{Naming, named_declarator, naming_of};
use c65_base::Refusal;
use c65_parse::{Parser, parse_specifiers};
use c65_parse_frames::Mark;
use c65_scan::Token;
use c65_tree::{Decl, Declarator, InitDeclarator, Initialiser, Specifiers, push_last};
use std::alloc::{AllocError, Global};

/// Where a reading of a declaration's declarators stands: behind the last, or behind one more
/// whose initialiser is still to be read.
#[derive(Drop)]
pub enum Declared {
    All(Vec<InitDeclarator>),
    More(Vec<InitDeclarator>, Declarator),
}

fn with_declarator(
    declarators: Vec<InitDeclarator>,
    declarator: Declarator,
    init: Option<Initialiser>,
) -> Result<Vec<InitDeclarator>, AllocError>
    ensures { IfOk result (λ r. Decls.declarators_of r.items ≡ Decls.with_declarator (Decls.declarators_of declarators.items) (declarator_of declarator) (maybe init_of init)) }
{
    let mut declarators = declarators;
    push_last(&mut declarators, InitDeclarator { declarator, init })?;
    Ok(declarators)
}

/// A declarator's initialiser, if it has one, and the next declarator behind a comma.
fn step(
    alloc: Global,
    parser: &mut Parser,
    unit: &[Token],
    naming: Naming,
    declarators: Vec<InitDeclarator>,
    declarator: Declarator,
) -> Result<Declared, Refusal>
    ensures { Gives (λ r. (declared_of r, rest_of parser.new, blocks_of parser.new)) result (Decls.declarators_step (limit_of Depth) unit.now naming (Decls.declarators_of declarators.items) (declarator_of declarator) (blocks_of parser.old) (rest_of parser.old)) }
{
    let init = match optional_init(alloc, parser, unit) {
        Ok(init) => init,
        Err(refusal) => {
            drop(declarator);
            return Err(refusal);
        }
    };
    let declarators = with_declarator(declarators, declarator, init)?;
    if !is_here(parser, Mark::Comma) {
        expect(parser, Mark::Semicolon)?;
        return Ok(Declared::All(declarators));
    }
    parser.take();
    let next = named_declarator(parser, naming)?;
    Ok(Declared::More(declarators, next))
}

/// The declarators with their initialisers from this first one on, and the semicolon.
fn declarators(
    alloc: Global,
    parser: &mut Parser,
    unit: &[Token],
    naming: Naming,
    first: Declarator,
) -> Result<Vec<InitDeclarator>, Refusal>
    ensures { Gives (λ r. (Decls.declarators_of r.items, rest_of parser.new, blocks_of parser.new)) result (Decls.declarators_read (limit_of Depth) unit.now naming (declarator_of first) (blocks_of parser.old) (rest_of parser.old)) }
{
    let mut before = Vec::new(alloc);
    let mut declarator = first;
    for _step in unit {
        let read = step(alloc, parser, unit, naming, before, declarator)?;
        match read {
            Declared::All(declarators) => return Ok(declarators),
            Declared::More(declarators, next) => {
                before = declarators;
                declarator = next;
            }
        }
    }
    drop(declarator);
    Err(parser.unexpected())
}

/// The declaration with these specifiers and this first declarator.
pub fn declaration_from(
    alloc: Global,
    parser: &mut Parser,
    unit: &[Token],
    specifiers: Specifiers,
    first: Declarator,
) -> Result<Decl, Refusal>
    ensures { Gives (λ d. (decl_of d, rest_of parser.new, blocks_of parser.new)) result (Decls.declaration_from (limit_of Depth) unit.now (specifiers_of specifiers) (declarator_of first) (blocks_of parser.old) (rest_of parser.old)) }
{
    let naming = naming_of(&specifiers);
    let declarators = declarators(alloc, parser, unit, naming, first)?;
    Ok(Decl {
        specifiers,
        declarators,
    })
}

/// A declaration without declarators, at its semicolon.
pub fn empty_declaration(alloc: Global, parser: &mut Parser, specifiers: Specifiers) -> Decl
    ensures { (decl_of result, rest_of parser.new, blocks_of parser.new) ≡ Decls.empty_declaration (specifiers_of specifiers) (blocks_of parser.old) (rest_of parser.old) }
{
    parser.take();
    Decl {
        specifiers,
        declarators: Vec::new(alloc),
    }
}

/// The declaration that stands here.
pub fn declaration(alloc: Global, parser: &mut Parser, unit: &[Token]) -> Result<Decl, Refusal>
    ensures { Gives (λ d. (decl_of d, rest_of parser.new, blocks_of parser.new)) result (Decls.declaration_read (limit_of Depth) unit.now (blocks_of parser.old) (rest_of parser.old)) }
{
    let specifiers = parse_specifiers(parser)?;
    if is_here(parser, Mark::Semicolon) {
        return Ok(empty_declaration(alloc, parser, specifiers));
    }
    let first = named_declarator(parser, naming_of(&specifiers))?;
    declaration_from(alloc, parser, unit, specifiers, first)
}

fn with_decl(decls: Vec<Decl>, decl: Decl) -> Result<Vec<Decl>, AllocError>
    ensures { IfOk result (λ r. decls_of r.items ≡ Decls.with_decl (decls_of decls.items) (decl_of decl)) }
{
    let mut decls = decls;
    push_last(&mut decls, decl)?;
    Ok(decls)
}

/// The declarations of old-style parameters that stand here (C90 6.7.1), or none.
pub fn declarations(
    alloc: Global,
    parser: &mut Parser,
    unit: &[Token],
) -> Result<Vec<Decl>, Refusal>
    ensures { Gives (λ r. (decls_of r.items, rest_of parser.new, blocks_of parser.new)) result (Decls.declarations_read (limit_of Depth) unit.now (blocks_of parser.old) (rest_of parser.old)) }
{
    let mut decls = Vec::new(alloc);
    for _step in unit {
        if begins_specifiers(parser) {
            let decl = declaration(alloc, parser, unit)?;
            decls = with_decl(decls, decl)?;
        } else {
            return Ok(decls);
        }
    }
    Err(parser.unexpected())
}
