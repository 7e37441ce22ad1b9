// The tokens that are being read, and the trees that stand there.
ghost use Rattle.std.specs.Prelude.{◌≡◌, ◌<◌, [], ◌∷◌, drop, length, true, false, IfOk, OnOk, IfErr};
ghost use Rattle.c65_base.specs.Answers.{Gives};
ghost use Rattle.c65_base.specs.Limits.{limit_of};
ghost use Rattle.c65_base.specs.declared.refusal.Refusal.TheVariants.{At, OutOfMemory, TooLarge};
ghost use Rattle.c65_base.specs.declared.refusal.Size.TheVariants.{Depth};
ghost use Rattle.c65_tree.specs.View.{expr_of, type_of, specifiers_of, declarator_of};
ghost use Rattle.c65_parse_names.specs.Scopes.{is_type_in, opened, closed, with_declared};
ghost use Rattle.c65_parse_names.specs.Blocks.{scope_of, no_types};
ghost use Rattle.c65_parse_trees.specs.Lists.{listed_of};
ghost use Rattle.c65_parse.specs.Machine.{changed, fault_code, run};
ghost use Rattle.c65_parse.specs.Views.{held_of, done_of};
ghost use Rattle.c65_parse.specs.Reading;
ghost use Rattle.c65_parse.specs.Reading.{rest_of, blocks_of, token_at, after_token, as_expr, as_specifiers, as_declarator, listed_read, expr_read, specifiers_read, declarator_read, type_read};

use crate::frame::{Change, Done, Held, Open, Sort, Step};
use crate::state::{DEPTH, Parser};
use crate::step::take;
use c65_base::{Code, Name, Pos, Refusal, Size};
use c65_parse_names::Scope;
use c65_parse_trees::{
    Listing, MeasuredDeclarator, MeasuredExpr, MeasuredSpecifiers, MeasuredType,
};
use c65_scan::{Keyword, Token, TokenKind};
use c65_tree::{Declarator, Expr, Specifiers, TypeName};
use std::alloc::{AllocError, Global};

/// The fault of a token with which nothing goes on.
fn fault(token: &Token) -> Refusal
    ensures { result ≡ At (fault_code token.now.kind) token.now.pos }
{
    let code = match &token.kind {
        TokenKind::Keyword(Keyword::Asm | Keyword::UnderscoredAsm) => Code::Assembly,
        _ => Code::Syntax,
    };
    Refusal::At {
        code,
        pos: token.pos,
    }
}

/// The refusal of a token with which only a deeper tree goes on.
fn too_deep() -> Refusal
    ensures { result ≡ TooLarge Depth 257 }
{
    Refusal::TooLarge {
        limit: Size::Depth,
        value: 257,
    }
}

fn apply(scope: &mut Scope, change: Change) -> Result<(), AllocError>
    ensures { OnOk result (scope_of scope.new ≡ changed change (scope_of scope.old)) }
{
    match change {
        Change::Nothing => Ok(()),
        Change::Open => scope.open(),
        Change::Declare(name, is_type) => scope.declare(name, is_type),
        Change::Close => {
            scope.close();
            Ok(())
        }
    }
}

/// The tree at the front of the tokens, and how many of them it has.
fn read(
    alloc: Global,
    scope: &mut Scope,
    limit: u16,
    least: u32,
    held: Held,
    tokens: &[Token],
) -> Result<(Done, usize), Refusal>
    ensures answer { Gives (λ r. (done_of r.0, drop r.1 tokens.now, scope_of scope.new)) result (run limit least (scope_of scope.old) [] (held_of held) tokens.now) }
    ensures inside { IfOk result (λ r. r.1 < length tokens.now) }
{
    let mut reading = Open {
        frames: Vec::new(alloc),
        held,
    };
    for (i, token) in tokens.iter().enumerate() {
        let step = take(alloc, scope, limit, least, reading, token)?;
        match step {
            Step::Go(next, change) => {
                match apply(scope, change) {
                    Ok(()) => reading = next,
                    Err(error) => {
                        drop(next);
                        return Err(error.into());
                    }
                }
            }
            Step::Stop(done) => return Ok((done, i)),
            Step::Deep => return Err(too_deep()),
            Step::Fail => return Err(fault(token)),
        }
    }
    drop(reading);
    Err(Refusal::fault(Code::Syntax, Pos { file: 0, line: 1 }))
}

impl<'a> Parser<'a> {
    /// A parser at the first of these tokens, with no name a type's. It takes no memory.
    pub fn new(alloc: Global, tokens: &'a [Token]) -> Parser<'a>
        requires { 0 < length tokens.now }
        ensures rest { rest_of result ≡ tokens.now }
        ensures scope { blocks_of result ≡ no_types ∷ [] }
    {
        Parser {
            tokens,
            at: 0,
            scope: Scope::new(alloc),
            alloc,
        }
    }

    /// The token that stands so many places on, or the last.
    pub fn peek(&self, ahead: u32) -> &'a Token
        ensures { result.now ≡ token_at (rest_of self.now) ahead }
    {
        let last = self.tokens.len() - 1;
        let rest = last - self.at;
        let steps = rest.min(ahead as usize);
        &self.tokens[self.at + steps]
    }

    /// Goes on by one token; at the last it stays.
    pub fn take(&mut self)
        ensures rest { rest_of self.new ≡ after_token (rest_of self.old) }
        ensures scope { blocks_of self.new ≡ blocks_of self.old }
    {
        if self.at + 1 < self.tokens.len() {
            self.at += 1;
        }
    }

    /// Begins a block.
    pub fn open(&mut self) -> Result<(), Refusal>
        ensures scope { OnOk result (blocks_of self.new ≡ opened (blocks_of self.old)) }
        ensures rest { rest_of self.new ≡ rest_of self.old }
        ensures memory { IfErr result (λ e. e ≡ OutOfMemory) }
    {
        Ok(self.scope.open()?)
    }

    /// Ends the innermost block; the one in which the parser began stays.
    pub fn close(&mut self)
        ensures scope { blocks_of self.new ≡ closed (blocks_of self.old) }
        ensures rest { rest_of self.new ≡ rest_of self.old }
    {
        self.scope.close();
    }

    /// Declares a name in the innermost block.
    pub fn declare(&mut self, name: Name, is_type: bool) -> Result<(), Refusal>
        ensures scope { OnOk result (blocks_of self.new ≡ with_declared name is_type (blocks_of self.old)) }
        ensures rest { rest_of self.new ≡ rest_of self.old }
        ensures memory { IfErr result (λ e. e ≡ OutOfMemory) }
    {
        Ok(self.scope.declare(name, is_type)?)
    }

    /// Whether the nearest declaration of a name made it a type's.
    pub fn is_type(&self, name: Name) -> bool
        ensures { result ≡ is_type_in (blocks_of self.now) name }
    {
        self.scope.is_type(name)
    }

    /// The refusal of the token here: `Assembly` at `asm` and `__asm__`, `Syntax` elsewhere.
    pub fn unexpected(&self) -> Refusal
        ensures { result ≡ At (fault_code (token_at (rest_of self.now) 0).kind) (token_at (rest_of self.now) 0).pos }
    {
        fault(self.peek(0))
    }

    /// The tree that stands here. The parser then stands behind it.
    fn read(&mut self, limit: u16, least: u32, held: Held) -> Result<Done, Refusal>
        ensures { Gives (λ done. (done_of done, rest_of self.new, blocks_of self.new)) result (run limit least (blocks_of self.old) [] (held_of held) (rest_of self.old)) }
    {
        let rest = &self.tokens[self.at..];
        match read(self.alloc, &mut self.scope, limit, least, held, rest) {
            Ok((done, length)) => {
                self.at += length;
                Ok(done)
            }
            Err(refusal) => Err(refusal),
        }
    }

    /// What was read, where it is an expression.
    fn expr_from(&self, done: Done) -> Result<MeasuredExpr, Refusal>
        ensures { Gives (λ e. (expr_of e.expr, rest_of self.now, blocks_of self.now)) result (as_expr (done_of done, rest_of self.now, blocks_of self.now)) }
    {
        match done {
            Done::Expr(e) => Ok(e),
            Done::Specifiers(_) | Done::Declarator(_) => {
                drop(done);
                Err(self.unexpected())
            }
        }
    }

    /// What was read, where it is specifiers.
    fn specifiers_from(&self, done: Done) -> Result<MeasuredSpecifiers, Refusal>
        ensures { Gives (λ q. (listed_of q, rest_of self.now, blocks_of self.now)) result (as_specifiers (done_of done, rest_of self.now, blocks_of self.now)) }
    {
        match done {
            Done::Specifiers(specifiers) => Ok(specifiers),
            Done::Expr(_) | Done::Declarator(_) => {
                drop(done);
                Err(self.unexpected())
            }
        }
    }

    /// What was read, where it is a declarator.
    fn declarator_from(&self, done: Done) -> Result<MeasuredDeclarator, Refusal>
        ensures { Gives (λ d. (declarator_of d.declarator, rest_of self.now, blocks_of self.now)) result (as_declarator (done_of done, rest_of self.now, blocks_of self.now)) }
    {
        match done {
            Done::Declarator(declarator) => Ok(declarator),
            Done::Expr(_) | Done::Specifiers(_) => {
                drop(done);
                Err(self.unexpected())
            }
        }
    }

    fn read_expr(&mut self, limit: u16, least: u32) -> Result<MeasuredExpr, Refusal>
        ensures { Gives (λ e. (expr_of e.expr, rest_of self.new, blocks_of self.new)) result (expr_read limit least (blocks_of self.old) (rest_of self.old)) }
    {
        match self.read(limit, least, Held::Operand) {
            Ok(done) => self.expr_from(done),
            Err(refusal) => Err(refusal),
        }
    }

    fn read_specifiers(&mut self, takes_storage: bool) -> Result<MeasuredSpecifiers, Refusal>
        ensures { Gives (λ q. (listed_of q, rest_of self.new, blocks_of self.new)) result (listed_read (limit_of Depth) takes_storage (blocks_of self.old) (rest_of self.old)) }
    {
        let listing = Listing::new(self.alloc, takes_storage);
        match self.read(DEPTH, 0, Held::Specifiers(listing)) {
            Ok(done) => self.specifiers_from(done),
            Err(refusal) => Err(refusal),
        }
    }

    fn read_declarator(&mut self, sort: Sort) -> Result<MeasuredDeclarator, Refusal>
        ensures { Gives (λ d. (declarator_of d.declarator, rest_of self.new, blocks_of self.new)) result (declarator_read (limit_of Depth) sort (blocks_of self.old) (rest_of self.old)) }
    {
        match self.read(DEPTH, 0, Held::Declarator(sort)) {
            Ok(done) => self.declarator_from(done),
            Err(refusal) => Err(refusal),
        }
    }
}

/// The expression that stands here (C90 6.3.17). The parser then stands at the first token behind it.
///
/// This call and the next ones refuse the first token with which nothing goes on, `Assembly` at `asm`
/// and `__asm__` and `Syntax` elsewhere, and `TooLarge` of `Depth` at the first token with which only a
/// deeper tree goes on.
pub fn parse_expr(parser: &mut Parser) -> Result<Expr, Refusal>
    ensures { Gives (λ e. (expr_of e, rest_of parser.new, blocks_of parser.new)) result (expr_read (limit_of Depth) 0 (blocks_of parser.old) (rest_of parser.old)) }
{
    match parser.read_expr(DEPTH, 0) {
        Ok(e) => Ok(e.expr),
        Err(refusal) => Err(refusal),
    }
}

/// The assignment expression that stands here (C90 6.3.16), as an initialiser is.
pub fn parse_assignment(parser: &mut Parser) -> Result<Expr, Refusal>
    ensures { Gives (λ e. (expr_of e, rest_of parser.new, blocks_of parser.new)) result (expr_read (limit_of Depth) 1 (blocks_of parser.old) (rest_of parser.old)) }
{
    match parser.read_expr(DEPTH, 1) {
        Ok(e) => Ok(e.expr),
        Err(refusal) => Err(refusal),
    }
}

/// The same in so many open constructs that trees of this depth have room in them.
pub fn parse_assignment_within(parser: &mut Parser, limit: u16) -> Result<Expr, Refusal>
    ensures { Gives (λ e. (expr_of e, rest_of parser.new, blocks_of parser.new)) result (expr_read limit 1 (blocks_of parser.old) (rest_of parser.old)) }
{
    match parser.read_expr(limit, 1) {
        Ok(e) => Ok(e.expr),
        Err(refusal) => Err(refusal),
    }
}

/// The constant expression that stands here (C90 6.4), as behind `case`.
pub fn parse_constant(parser: &mut Parser) -> Result<Expr, Refusal>
    ensures { Gives (λ e. (expr_of e, rest_of parser.new, blocks_of parser.new)) result (expr_read (limit_of Depth) 2 (blocks_of parser.old) (rest_of parser.old)) }
{
    match parser.read_expr(DEPTH, 2) {
        Ok(e) => Ok(e.expr),
        Err(refusal) => Err(refusal),
    }
}

/// The declaration specifiers that stand here (C90 6.5), or none.
pub fn parse_specifiers(parser: &mut Parser) -> Result<Specifiers, Refusal>
    ensures { Gives (λ q. (specifiers_of q, rest_of parser.new, blocks_of parser.new)) result (specifiers_read (limit_of Depth) (blocks_of parser.old) (rest_of parser.old)) }
{
    match parser.read_specifiers(true) {
        Ok(specifiers) => Ok(specifiers.specifiers),
        Err(refusal) => Err(refusal),
    }
}

/// The declarator that stands here (C90 6.5.4). Its name is not declared.
pub fn parse_declarator(parser: &mut Parser) -> Result<Declarator, Refusal>
    ensures { Gives (λ d. (declarator_of d, rest_of parser.new, blocks_of parser.new)) result (declarator_read (limit_of Depth) (Sort.Named true) (blocks_of parser.old) (rest_of parser.old)) }
{
    match parser.read_declarator(Sort::Named(true)) {
        Ok(declarator) => Ok(declarator.declarator),
        Err(refusal) => Err(refusal),
    }
}

/// The declarator that stands here behind specifiers without a type specifier: its name is no type's.
pub fn parse_untyped_declarator(parser: &mut Parser) -> Result<Declarator, Refusal>
    ensures { Gives (λ d. (declarator_of d, rest_of parser.new, blocks_of parser.new)) result (declarator_read (limit_of Depth) (Sort.Named false) (blocks_of parser.old) (rest_of parser.old)) }
{
    match parser.read_declarator(Sort::Named(false)) {
        Ok(declarator) => Ok(declarator.declarator),
        Err(refusal) => Err(refusal),
    }
}

/// The type name whose specifiers were read.
fn type_behind(parser: &mut Parser, specifiers: MeasuredSpecifiers) -> Result<TypeName, Refusal>
    ensures { Gives (λ t. (type_of t, rest_of parser.new, blocks_of parser.new)) result (Reading.type_behind (limit_of Depth) (listed_of specifiers) (blocks_of parser.old) (rest_of parser.old)) }
{
    if specifiers.is_empty() {
        drop(specifiers);
        return Err(parser.unexpected());
    }
    match parser.read_declarator(Sort::Abstract) {
        Ok(declarator) => Ok(MeasuredType::new(specifiers, declarator).name),
        Err(refusal) => {
            drop(specifiers);
            Err(refusal)
        }
    }
}

/// The type name that stands here (C90 6.5.5).
pub fn parse_type_name(parser: &mut Parser) -> Result<TypeName, Refusal>
    ensures { Gives (λ t. (type_of t, rest_of parser.new, blocks_of parser.new)) result (type_read (limit_of Depth) (blocks_of parser.old) (rest_of parser.old)) }
{
    match parser.read_specifiers(false) {
        Ok(specifiers) => type_behind(parser, specifiers),
        Err(refusal) => Err(refusal),
    }
}
