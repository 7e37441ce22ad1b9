// The parser's calls with what the grammar says of their refusals; the last of the tokens is their only `End`.
ghost use Rattle.std.specs.Prelude.{true, false};
ghost use Rattle.c65_base.specs.Limits.{limit_of};
ghost use Rattle.c65_base.specs.declared.refusal.Size.TheVariants.{Depth};
ghost use Rattle.c65_parse.specs.Reading.{rest_of};
ghost use Rattle.c65_parse_law_sound.specs.Units.{EndsOnce};
ghost use Rattle.c65_parse_law_least.specs.Calls.{StopsExpr, StopsSpecifiers, StopsDeclarator, StopsType};

use c65_base::Refusal;
use c65_parse::{
    Parser, parse_assignment, parse_constant, parse_declarator, parse_expr, parse_specifiers,
    parse_type_name, parse_untyped_declarator,
};
use c65_tree::{Declarator, Expr, Specifiers, TypeName};

/// The expression that stands here (C90 6.3.17).
pub fn stop_expression(parser: &mut Parser) -> Result<Expr, Refusal>
    requires { EndsOnce (rest_of parser.old) }
    ensures { StopsExpr (limit_of Depth) 0 parser.old result }
{
    parse_expr(parser)
}

/// The assignment expression that stands here (C90 6.3.16).
pub fn stop_assignment(parser: &mut Parser) -> Result<Expr, Refusal>
    requires { EndsOnce (rest_of parser.old) }
    ensures { StopsExpr (limit_of Depth) 1 parser.old result }
{
    parse_assignment(parser)
}

/// The constant expression that stands here (C90 6.4).
pub fn stop_constant(parser: &mut Parser) -> Result<Expr, Refusal>
    requires { EndsOnce (rest_of parser.old) }
    ensures { StopsExpr (limit_of Depth) 2 parser.old result }
{
    parse_constant(parser)
}

/// The declaration specifiers that stand here (C90 6.5), or none.
pub fn stop_specifiers(parser: &mut Parser) -> Result<Specifiers, Refusal>
    requires { EndsOnce (rest_of parser.old) }
    ensures { StopsSpecifiers (limit_of Depth) parser.old result }
{
    parse_specifiers(parser)
}

/// The declarator that stands here behind a type specifier (C90 6.5.4).
pub fn stop_declarator(parser: &mut Parser) -> Result<Declarator, Refusal>
    requires { EndsOnce (rest_of parser.old) }
    ensures { StopsDeclarator (limit_of Depth) true parser.old result }
{
    parse_declarator(parser)
}

/// The declarator that stands here behind specifiers without a type specifier (C90 6.5.6).
pub fn stop_untyped_declarator(parser: &mut Parser) -> Result<Declarator, Refusal>
    requires { EndsOnce (rest_of parser.old) }
    ensures { StopsDeclarator (limit_of Depth) false parser.old result }
{
    parse_untyped_declarator(parser)
}

/// The type name that stands here before its parenthesis (C90 6.5.5).
pub fn stop_type_name(parser: &mut Parser) -> Result<TypeName, Refusal>
    requires { EndsOnce (rest_of parser.old) }
    ensures { StopsType (limit_of Depth) parser.old result }
{
    parse_type_name(parser)
}
