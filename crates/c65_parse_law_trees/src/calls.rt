// The parser's calls with what the grammar says of them. Their own contracts are exact by the machine; these add that
// no tree which the grammar derives is refused.
ghost use Rattle.std.specs.Prelude.{true, false};
ghost use Rattle.c65_base.specs.Limits.{limit_of};
ghost use Rattle.c65_base.specs.declared.refusal.Size.TheVariants.{Depth};
ghost use Rattle.c65_tree.specs.View.{expr_of, specifiers_of, declarator_of, type_of};
ghost use Rattle.c65_parse_law_trees.specs.Calls.{AcceptsExpr, AcceptsSpecifiers, AcceptsDeclarator, AcceptsType};

use c65_base::Refusal;
use c65_parse::{
    Parser, parse_assignment, parse_constant, parse_declarator, parse_expr, parse_specifiers,
    parse_type_name, parse_untyped_declarator,
};
use c65_tree::{Declarator, Expr, Specifiers, TypeName};

/// The expression that stands here (C90 6.3.17).
pub fn read_expression(parser: &mut Parser) -> Result<Expr, Refusal>
    ensures { AcceptsExpr (limit_of Depth) 0 parser.old parser.new expr_of result }
{
    parse_expr(parser)
}

/// The assignment expression that stands here (C90 6.3.16).
pub fn read_assignment(parser: &mut Parser) -> Result<Expr, Refusal>
    ensures { AcceptsExpr (limit_of Depth) 1 parser.old parser.new expr_of result }
{
    parse_assignment(parser)
}

/// The constant expression that stands here (C90 6.4).
pub fn read_constant(parser: &mut Parser) -> Result<Expr, Refusal>
    ensures { AcceptsExpr (limit_of Depth) 2 parser.old parser.new expr_of result }
{
    parse_constant(parser)
}

/// The declaration specifiers that stand here (C90 6.5), or none.
pub fn read_specifiers(parser: &mut Parser) -> Result<Specifiers, Refusal>
    ensures { AcceptsSpecifiers (limit_of Depth) parser.old parser.new specifiers_of result }
{
    parse_specifiers(parser)
}

/// The declarator that stands here behind a type specifier (C90 6.5.4).
pub fn read_declarator(parser: &mut Parser) -> Result<Declarator, Refusal>
    ensures { AcceptsDeclarator (limit_of Depth) true parser.old parser.new declarator_of result }
{
    parse_declarator(parser)
}

/// The declarator that stands here behind specifiers without a type specifier (C90 6.5.6).
pub fn read_untyped_declarator(parser: &mut Parser) -> Result<Declarator, Refusal>
    ensures { AcceptsDeclarator (limit_of Depth) false parser.old parser.new declarator_of result }
{
    parse_untyped_declarator(parser)
}

/// The type name that stands here before its parenthesis (C90 6.5.5).
pub fn read_type_name(parser: &mut Parser) -> Result<TypeName, Refusal>
    ensures { AcceptsType (limit_of Depth) parser.old parser.new type_of result }
{
    parse_type_name(parser)
}
