// The token that stands here.
ghost use Rattle.std.specs.Prelude.{◌≡◌};
ghost use Rattle.c65_base.specs.Answers.{Gives};
ghost use Rattle.c65_base.specs.declared.refusal.Refusal.TheVariants.{TooLarge};
ghost use Rattle.c65_base.specs.declared.refusal.Size.TheVariants.{Depth};
ghost use Rattle.c65_parse.specs.Reading.{rest_of, blocks_of};
ghost use Rattle.c65_decl.specs.Here;

use crate::words::{is_specifier, name_of};
use c65_base::{Name, Pos, Refusal, Size};
use c65_parse::Parser;
use c65_parse_frames::{Mark, Sign, is_mark, sign_of};

/// What the token is that stands here.
pub fn sign_here(parser: &Parser) -> Sign
    ensures { result ≡ Here.sign_here (rest_of parser.now) }
{
    sign_of(parser.peek(0))
}

/// The place of the token that stands here.
pub fn pos_here(parser: &Parser) -> Pos
    ensures { result ≡ Here.pos_here (rest_of parser.now) }
{
    parser.peek(0).pos
}

/// Whether this token stands here.
pub fn is_here(parser: &Parser, mark: Mark) -> bool
    ensures { result ≡ Here.is_here mark (rest_of parser.now) }
{
    is_mark(mark, sign_here(parser))
}

/// Whether a colon stands behind the token here.
pub fn colon_follows(parser: &Parser) -> bool
    ensures { result ≡ Here.colon_follows (rest_of parser.now) }
{
    is_mark(Mark::Colon, sign_of(parser.peek(1)))
}

fn names_type(parser: &Parser, name: Option<Name>) -> bool
    ensures { result ≡ Here.names_type (blocks_of parser.now) name }
{
    match name {
        Some(name) => parser.is_type(name),
        None => false,
    }
}

/// Whether the token here is a type's name.
pub fn is_type_here(parser: &Parser) -> bool
    ensures { result ≡ Here.is_type_here (blocks_of parser.now) (rest_of parser.now) }
{
    names_type(parser, name_of(sign_here(parser)))
}

/// Whether the token here begins specifiers.
pub fn begins_specifiers(parser: &Parser) -> bool
    ensures { result ≡ Here.begins_specifiers (blocks_of parser.now) (rest_of parser.now) }
{
    is_specifier(sign_here(parser)) || is_type_here(parser)
}

/// Passes over a token, which must stand here.
pub fn expect(parser: &mut Parser, mark: Mark) -> Result<(), Refusal>
    ensures { Gives (λ u. (rest_of parser.new, blocks_of parser.new)) result (Here.expected mark (blocks_of parser.old) (rest_of parser.old)) }
{
    if !is_here(parser, mark) {
        return Err(parser.unexpected());
    }
    parser.take();
    Ok(())
}

/// Passes over a name, which must stand here.
pub fn expect_name(parser: &mut Parser) -> Result<Name, Refusal>
    ensures { Gives (λ n. (n, rest_of parser.new, blocks_of parser.new)) result (Here.name_read (blocks_of parser.old) (rest_of parser.old)) }
{
    match name_of(sign_here(parser)) {
        Some(name) => {
            parser.take();
            Ok(name)
        }
        None => Err(parser.unexpected()),
    }
}

/// The refusal of a tree that is deeper than the limit.
pub fn too_deep() -> Refusal
    ensures { result ≡ TooLarge Depth 257 }
{
    Refusal::TooLarge {
        limit: Size::Depth,
        value: 257,
    }
}
