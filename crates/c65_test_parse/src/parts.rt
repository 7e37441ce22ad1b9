// What stands at the front of tokens.
use crate::words::TYPE;
use c65_base::Refusal;
use c65_parse::{Parser, parse_declarator, parse_expr, parse_specifiers, parse_type_name};
use c65_scan::Token;
use std::alloc::Global;

#[derive(Clone, Copy)]
pub enum Part {
    Expr,
    Specifiers,
    Declarator,
    TypeName,
}

impl Part {
    pub fn named(name: &str) -> Option<Part> {
        match name {
            "expr" => Some(Part::Expr),
            "specifiers" => Some(Part::Specifiers),
            "declarator" => Some(Part::Declarator),
            "type" => Some(Part::TypeName),
            _ => None,
        }
    }
}

/// The line of the tree's root, or how many specifiers there are.
fn root(parser: &mut Parser, part: Part) -> Result<usize, Refusal> {
    let line = match part {
        Part::Expr => {
            let e = parse_expr(parser)?;
            e.pos.line
        }
        Part::Specifiers => {
            let specifiers = parse_specifiers(parser)?;
            return Ok(specifiers.items.len());
        }
        Part::Declarator => {
            let declarator = parse_declarator(parser)?;
            declarator.pos.line
        }
        Part::TypeName => {
            let name = parse_type_name(parser)?;
            name.declarator.pos.line
        }
    };
    Ok(line as usize)
}

/// What `root` answers, and the line of the token at which the parser then stands. `T` is a type.
pub fn read(alloc: Global, part: Part, tokens: &[Token]) -> Result<(usize, u32), Refusal> {
    if tokens.is_empty() {
        return Ok((0, 0));
    }
    let mut parser = Parser::new(alloc, tokens);
    parser.declare(TYPE, true)?;
    let root = root(&mut parser, part)?;
    Ok((root, parser.peek(0).pos.line))
}
