// Function definitions (C90 6.7.1).
ghost use Rattle.std.specs.Prelude.{◌≡◌, OnOk, IfOk, IfErr};
ghost use Rattle.c65_base.specs.declared.refusal.Refusal.TheVariants.{OutOfMemory};
ghost use Rattle.c65_base.specs.Limits.{limit_of};
ghost use Rattle.c65_base.specs.declared.refusal.Size.TheVariants.{Depth};
ghost use Rattle.c65_base.specs.Answers.{Gives};
ghost use Rattle.c65_tree.specs.View.{specifiers_of, declarator_of, params_of, function_of};
ghost use Rattle.c65_parse_names.specs.Scopes.{opened};
ghost use Rattle.c65_parse.specs.Reading.{rest_of, blocks_of};
ghost use Rattle.c65_decl.specs.Declaring;
ghost use Rattle.c65_decl.specs.Units;

use crate::declaration::declarations;
use crate::enumerators::{in_declarator, in_specifiers};
use crate::here::is_here;
use crate::names::declare_maybe;
use crate::statement::statement;
use crate::trees::{declared_name, is_typedef, nearest_params};
use c65_base::{Name, Refusal};
use c65_parse::Parser;
use c65_parse_frames::Mark;
use c65_scan::Token;
use c65_tree::{Declarator, Function, Param, Params, Specifiers};
use std::alloc::{AllocError, Global};

fn declare_names(parser: &mut Parser, names: &[Name]) -> Result<(), Refusal>
    ensures scope { OnOk result (blocks_of parser.new ≡ Declaring.with_names names.now (blocks_of parser.old)) }
    ensures rest { rest_of parser.new ≡ rest_of parser.old }
    ensures memory { IfErr result (λ e. e ≡ OutOfMemory) }
{
    for name in names {
        parser.declare(*name, false)?;
    }
    Ok(())
}

/// The enumerators in a parameter, in their order.
fn enumerators_in(
    alloc: Global,
    specifiers: &Specifiers,
    declarator: &Declarator,
) -> Result<Vec<Name>, AllocError>
    ensures { IfOk result (λ r. r.items ≡ Declaring.enumerators_in (specifiers_of specifiers.now) (declarator_of declarator.now)) }
{
    let names = in_specifiers(Vec::new(alloc), specifiers)?;
    in_declarator(names, declarator)
}

fn declare_param(alloc: Global, parser: &mut Parser, param: &Param) -> Result<(), Refusal>
    ensures scope { OnOk result (blocks_of parser.new ≡ Declaring.one_param param.now (blocks_of parser.old)) }
    ensures rest { rest_of parser.new ≡ rest_of parser.old }
    ensures memory { IfErr result (λ e. e ≡ OutOfMemory) }
{
    let names = enumerators_in(alloc, &param.specifiers, &param.declarator)?;
    declare_names(parser, &names)?;
    declare_maybe(
        parser,
        declared_name(&param.declarator),
        is_typedef(&param.specifiers),
    )
}

fn declare_param_list(alloc: Global, parser: &mut Parser, params: &[Param]) -> Result<(), Refusal>
    ensures scope { OnOk result (blocks_of parser.new ≡ Declaring.each_param params.now (blocks_of parser.old)) }
    ensures rest { rest_of parser.new ≡ rest_of parser.old }
    ensures memory { IfErr result (λ e. e ≡ OutOfMemory) }
{
    for param in params {
        declare_param(alloc, parser, param)?;
    }
    Ok(())
}

fn declare_all(alloc: Global, parser: &mut Parser, params: &Params) -> Result<(), Refusal>
    ensures scope { OnOk result (blocks_of parser.new ≡ Declaring.with_params (Some (params_of params.now)) (blocks_of parser.old)) }
    ensures rest { rest_of parser.new ≡ rest_of parser.old }
    ensures memory { IfErr result (λ e. e ≡ OutOfMemory) }
{
    match params {
        Params::Types(list, _) => declare_param_list(alloc, parser, list),
        Params::Empty => Ok(()),
        Params::Names(_) => Ok(()),
    }
}

/// Declares the parameters of a function definition.
fn declare_params(
    alloc: Global,
    parser: &mut Parser,
    declarator: &Declarator,
) -> Result<(), Refusal>
    ensures scope { OnOk result (blocks_of parser.new ≡ Declaring.in_function (declarator_of declarator.now) (blocks_of parser.old)) }
    ensures rest { rest_of parser.new ≡ rest_of parser.old }
    ensures memory { IfErr result (λ e. e ≡ OutOfMemory) }
{
    match nearest_params(declarator) {
        Some(params) => declare_all(alloc, parser, params),
        None => Ok(()),
    }
}

/// Begins the block of a function definition and declares its parameters in it.
fn open_function(alloc: Global, parser: &mut Parser, declarator: &Declarator) -> Result<(), Refusal>
    ensures scope { OnOk result (blocks_of parser.new ≡ Declaring.in_function (declarator_of declarator.now) (opened (blocks_of parser.old))) }
    ensures rest { rest_of parser.new ≡ rest_of parser.old }
    ensures memory { IfErr result (λ e. e ≡ OutOfMemory) }
{
    parser.open()?;
    declare_params(alloc, parser, declarator)
}

/// The definition with this head, from behind it.
#[tactic(auto, using(crate::proofs::Memory::memory_fails))]
pub fn read_function(
    alloc: Global,
    parser: &mut Parser,
    unit: &[Token],
    specifiers: Specifiers,
    declarator: Declarator,
) -> Result<Function, Refusal>
    ensures { Gives (λ f. (function_of f, rest_of parser.new, blocks_of parser.new)) result (Units.function_read (limit_of Depth) unit.now (specifiers_of specifiers) (declarator_of declarator) (blocks_of parser.old) (rest_of parser.old)) }
{
    match open_function(alloc, parser, &declarator) {
        Ok(()) => {}
        Err(refusal) => {
            drop(declarator);
            return Err(refusal);
        }
    }
    let declarations = match declarations(alloc, parser, unit) {
        Ok(declarations) => declarations,
        Err(refusal) => {
            drop(declarator);
            return Err(refusal);
        }
    };
    if !is_here(parser, Mark::OpenBrace) {
        drop(declarator);
        return Err(parser.unexpected());
    }
    match statement(alloc, parser, unit) {
        Ok(body) => {
            parser.close();
            Ok(Function {
                specifiers,
                declarator,
                declarations,
                body,
            })
        }
        Err(refusal) => {
            drop(declarator);
            Err(refusal)
        }
    }
}
