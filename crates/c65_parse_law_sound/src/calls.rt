// The parser's calls with what the grammar says of them. Their own contracts are exact by the machine; these add
// that the tokens taken are the tree's.
ghost use Rattle.std.specs.Prelude.{IfOk, true, false};
ghost use Rattle.c65_tree.specs.View.{expr_of, specifiers_of, declarator_of, type_of, unit_of};
ghost use Rattle.c65_parse_grammar.specs.Readings.{IsUnit};
ghost use Rattle.c65_parse_law_sound.specs.Units.{EndsOnce};
ghost use Rattle.c65_parse_law_sound.specs.Calls.{TakesExpr, TakesSpecifiers, TakesDeclarator, TakesType};

use c65_base::Refusal;
use c65_decl::parse_unit;
use c65_parse::{
    Parser, parse_assignment, parse_constant, parse_declarator, parse_expr, parse_specifiers,
    parse_type_name, parse_untyped_declarator,
};
use c65_scan::Token;
use c65_tree::{Declarator, Expr, Specifiers, TypeName, Unit};
use std::alloc::Global;

/// The expression that stands here (C90 6.3.17).
pub fn take_expression(parser: &mut Parser) -> Result<Expr, Refusal>
    ensures { IfOk result (λ e. TakesExpr 0 parser.old parser.new (expr_of e)) }
{
    parse_expr(parser)
}

/// The assignment expression that stands here (C90 6.3.16).
pub fn take_assignment(parser: &mut Parser) -> Result<Expr, Refusal>
    ensures { IfOk result (λ e. TakesExpr 1 parser.old parser.new (expr_of e)) }
{
    parse_assignment(parser)
}

/// The constant expression that stands here (C90 6.4).
pub fn take_constant(parser: &mut Parser) -> Result<Expr, Refusal>
    ensures { IfOk result (λ e. TakesExpr 2 parser.old parser.new (expr_of e)) }
{
    parse_constant(parser)
}

/// The declaration specifiers that stand here (C90 6.5), or none.
pub fn take_specifiers(parser: &mut Parser) -> Result<Specifiers, Refusal>
    ensures { IfOk result (λ q. TakesSpecifiers parser.old parser.new (specifiers_of q)) }
{
    parse_specifiers(parser)
}

/// The declarator that stands here behind a type specifier (C90 6.5.4).
pub fn take_declarator(parser: &mut Parser) -> Result<Declarator, Refusal>
    ensures { IfOk result (λ d. TakesDeclarator true parser.old parser.new (declarator_of d)) }
{
    parse_declarator(parser)
}

/// The declarator that stands here behind specifiers without a type specifier (C90 6.5.6).
pub fn take_untyped_declarator(parser: &mut Parser) -> Result<Declarator, Refusal>
    ensures { IfOk result (λ d. TakesDeclarator false parser.old parser.new (declarator_of d)) }
{
    parse_untyped_declarator(parser)
}

/// The type name that stands here (C90 6.5.5).
pub fn take_type_name(parser: &mut Parser) -> Result<TypeName, Refusal>
    ensures { IfOk result (λ t. TakesType parser.old parser.new (type_of t)) }
{
    parse_type_name(parser)
}

/// The unit whose tokens these are (C90 6.7); their last is an `End`, and no other one is.
pub fn take_unit(alloc: Global, tokens: &[Token]) -> Result<Unit, Refusal>
    requires { EndsOnce tokens.now }
    ensures { IfOk result (λ u. IsUnit tokens.now (unit_of u)) }
{
    parse_unit(alloc, tokens)
}
