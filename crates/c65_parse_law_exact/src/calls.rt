// The parser's calls with what the grammar says of all their answers.
ghost use Rattle.std.specs.Prelude.{true, false};
ghost use Rattle.c65_base.specs.Limits.{limit_of};
ghost use Rattle.c65_base.specs.declared.refusal.Size.TheVariants.{Depth};
ghost use Rattle.c65_tree.specs.View.{expr_of, specifiers_of, declarator_of, type_of, unit_of};
ghost use Rattle.c65_base.specs.Answers.{Gives};
ghost use Rattle.c65_parse.specs.Reading.{rest_of};
ghost use Rattle.c65_decl.specs.Units.{unit_read};
ghost use Rattle.c65_parse_law_sound.specs.Units.{EndsOnce};
ghost use Rattle.c65_parse_law_exact.specs.Exact.{ReadsUnit};
ghost use Rattle.c65_parse_law_exact.specs.Calls.{StopsUnit, ReadsExpr, ReadsSpecifiers, ReadsDeclarator, ReadsType};

use c65_base::Refusal;
use c65_decl::parse_unit;
use c65_parse::{
    Parser, parse_assignment, parse_constant, parse_declarator, parse_expr, parse_specifiers,
    parse_type_name, parse_untyped_declarator,
};
use c65_scan::Token;
use c65_tree::{Declarator, Expr, Specifiers, TypeName, Unit};
use std::alloc::Global;

/// The unit whose tokens these are (C90 6.7), or the fault of the first token with which none goes on; the last token is
/// the only `End`.
pub fn stop_unit(alloc: Global, tokens: &[Token]) -> Result<Unit, Refusal>
    requires { EndsOnce tokens.now }
    ensures { StopsUnit (limit_of Depth) tokens.now result }
{
    parse_unit(alloc, tokens)
}

/// The only unit whose tokens these are (C90 6.7), or the first token with which none goes on, or that of the limit of
/// depth.
pub fn read_exactly(alloc: Global, tokens: &[Token]) -> Result<Unit, Refusal>
    ensures grammar { EndsOnce tokens.now → ReadsUnit tokens.now unit_of result }
    ensures reading { Gives unit_of result (unit_read (limit_of Depth) tokens.now) }
{
    parse_unit(alloc, tokens)
}

/// The expression that stands here (C90 6.3.17).
pub fn expression_exactly(parser: &mut Parser) -> Result<Expr, Refusal>
    ensures { EndsOnce (rest_of parser.old) → ReadsExpr 0 parser.old parser.new expr_of result }
{
    parse_expr(parser)
}

/// The assignment expression that stands here (C90 6.3.16).
pub fn assignment_exactly(parser: &mut Parser) -> Result<Expr, Refusal>
    ensures { EndsOnce (rest_of parser.old) → ReadsExpr 1 parser.old parser.new expr_of result }
{
    parse_assignment(parser)
}

/// The constant expression that stands here (C90 6.4).
pub fn constant_exactly(parser: &mut Parser) -> Result<Expr, Refusal>
    ensures { EndsOnce (rest_of parser.old) → ReadsExpr 2 parser.old parser.new expr_of result }
{
    parse_constant(parser)
}

/// The declaration specifiers that stand here (C90 6.5), or none.
pub fn specifiers_exactly(parser: &mut Parser) -> Result<Specifiers, Refusal>
    ensures { EndsOnce (rest_of parser.old) → ReadsSpecifiers parser.old parser.new specifiers_of result }
{
    parse_specifiers(parser)
}

/// The declarator that stands here behind a type specifier (C90 6.5.4).
pub fn declarator_exactly(parser: &mut Parser) -> Result<Declarator, Refusal>
    ensures { EndsOnce (rest_of parser.old) → ReadsDeclarator true parser.old parser.new declarator_of result }
{
    parse_declarator(parser)
}

/// The declarator that stands here behind specifiers without a type specifier (C90 6.5.6).
pub fn untyped_declarator_exactly(parser: &mut Parser) -> Result<Declarator, Refusal>
    ensures { EndsOnce (rest_of parser.old) → ReadsDeclarator false parser.old parser.new declarator_of result }
{
    parse_untyped_declarator(parser)
}

/// The type name that stands here before its parenthesis (C90 6.5.5).
pub fn type_name_exactly(parser: &mut Parser) -> Result<TypeName, Refusal>
    ensures { EndsOnce (rest_of parser.old) → ReadsType parser.old parser.new type_of result }
{
    parse_type_name(parser)
}
