// What declarators and parameters declare (C90 6.1.2.1).
ghost use Rattle.std.specs.Prelude.{◌≡◌, OnOk, IfErr};
ghost use Rattle.c65_base.specs.declared.refusal.Refusal.TheVariants.{OutOfMemory};
ghost use Rattle.c65_base.specs.Limits.{limit_of};
ghost use Rattle.c65_base.specs.declared.refusal.Size.TheVariants.{Depth};
ghost use Rattle.c65_base.specs.Answers.{Gives};
ghost use Rattle.c65_tree.specs.View.{specifiers_of, declarator_of};
ghost use Rattle.c65_parse.specs.Reading.{rest_of, blocks_of, declarator_read};
ghost use Rattle.c65_parse.specs.declared.frame.Sort.TheVariants.{Named};
ghost use Rattle.c65_decl.specs.Declaring;

use crate::trees::{declared_name, has_type, is_typedef};
use c65_base::{Name, Refusal};
use c65_parse::{Parser, parse_declarator, parse_untyped_declarator};
use c65_tree::{Declarator, Specifiers};

/// How specifiers declare names: behind a type specifier or not, and as types or not.
#[derive(Clone, Copy)]
pub struct Naming {
    pub has_type: bool,
    pub makes_types: bool,
}

pub fn naming_of(specifiers: &Specifiers) -> Naming
    ensures { result ≡ Declaring.naming_of (specifiers_of specifiers.now) }
{
    Naming {
        has_type: has_type(specifiers),
        makes_types: is_typedef(specifiers),
    }
}

/// Declares a name, if there is one.
pub fn declare_maybe(parser: &mut Parser, name: Option<Name>, is_type: bool) -> Result<(), Refusal>
    ensures scope { OnOk result (blocks_of parser.new ≡ Declaring.declared_maybe name is_type (blocks_of parser.old)) }
    ensures rest { rest_of parser.new ≡ rest_of parser.old }
    ensures memory { IfErr result (λ e. e ≡ OutOfMemory) }
{
    match name {
        Some(name) => parser.declare(name, is_type),
        None => Ok(()),
    }
}

/// The declarator that stands here, behind a type specifier or not.
fn bare_declarator(parser: &mut Parser, has_type: bool) -> Result<Declarator, Refusal>
    ensures { Gives (λ d. (declarator_of d, rest_of parser.new, blocks_of parser.new)) result (declarator_read (limit_of Depth) (Named has_type) (blocks_of parser.old) (rest_of parser.old)) }
{
    if has_type {
        parse_declarator(parser)
    } else {
        parse_untyped_declarator(parser)
    }
}

/// The declarator that stands here. Its name is declared behind it.
#[tactic(auto, using(crate::proofs::Memory::memory_fails))]
pub fn named_declarator(parser: &mut Parser, naming: Naming) -> Result<Declarator, Refusal>
    ensures { Gives (λ d. (declarator_of d, rest_of parser.new, blocks_of parser.new)) result (Declaring.named_read (limit_of Depth) naming (blocks_of parser.old) (rest_of parser.old)) }
{
    let declarator = bare_declarator(parser, naming.has_type)?;
    match declare_maybe(parser, declared_name(&declarator), naming.makes_types) {
        Ok(()) => Ok(declarator),
        Err(refusal) => {
            drop(declarator);
            Err(refusal)
        }
    }
}
