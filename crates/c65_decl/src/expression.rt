// Expressions in the places of statements (C90 6.6).
ghost use Rattle.std.specs.Prelude.{◌≡◌};
ghost use Rattle.c65_base.specs.Answers.{Gives};
ghost use Rattle.c65_base.specs.Limits.{limit_of};
ghost use Rattle.c65_base.specs.declared.refusal.Size.TheVariants.{Depth};
ghost use Rattle.c65_tree.specs.View.{expr_of, maybe};
ghost use Rattle.c65_parse.specs.Reading.{rest_of, blocks_of};
ghost use Rattle.c65_decl.specs.Expressions.{test_read, optional_read, case_read};

use crate::here::{expect, is_here};
use c65_base::Refusal;
use c65_parse::{Parser, parse_constant, parse_expr};
use c65_parse_frames::Mark;
use c65_tree::Expr;

/// An expression in parentheses.
pub fn test(parser: &mut Parser) -> Result<Expr, Refusal>
    ensures { Gives (λ e. (expr_of e, rest_of parser.new, blocks_of parser.new)) result (test_read (limit_of Depth) (blocks_of parser.old) (rest_of parser.old)) }
{
    expect(parser, Mark::OpenParen)?;
    let e = parse_expr(parser)?;
    match expect(parser, Mark::CloseParen) {
        Ok(()) => Ok(e),
        Err(refusal) => {
            drop(e);
            Err(refusal)
        }
    }
}

/// A constant expression and a colon (C90 6.6.1).
pub fn case_value(parser: &mut Parser) -> Result<Expr, Refusal>
    ensures { Gives (λ e. (expr_of e, rest_of parser.new, blocks_of parser.new)) result (case_read (limit_of Depth) (blocks_of parser.old) (rest_of parser.old)) }
{
    let e = parse_constant(parser)?;
    match expect(parser, Mark::Colon) {
        Ok(()) => Ok(e),
        Err(refusal) => {
            drop(e);
            Err(refusal)
        }
    }
}

/// An expression or nothing, and the token that ends it.
pub fn optional_expr(parser: &mut Parser, end: Mark) -> Result<Option<Expr>, Refusal>
    ensures { Gives (λ e. (maybe expr_of e, rest_of parser.new, blocks_of parser.new)) result (optional_read (limit_of Depth) end (blocks_of parser.old) (rest_of parser.old)) }
{
    if is_here(parser, end) {
        parser.take();
        return Ok(None);
    }
    let e = parse_expr(parser)?;
    match expect(parser, end) {
        Ok(()) => Ok(Some(e)),
        Err(refusal) => {
            drop(e);
            Err(refusal)
        }
    }
}
