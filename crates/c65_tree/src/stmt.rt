// Statements, declarations and units.
use crate::expr::{Declarator, Expr, Specifiers};
use c65_base::{Name, Pos};

/// An initialiser (C90 6.5.7).
#[derive(Drop)]
#[cycle(initialiser)]
pub struct Initialiser {
    pub pos: Pos,
    pub kind: InitKind,
}

#[derive(Drop)]
#[cycle(initialiser)]
pub enum InitKind {
    Value(Expr),
    List(Vec<Initialiser>),
}

/// A declaration (C90 6.5).
#[derive(Drop)]
pub struct Decl {
    pub specifiers: Specifiers,
    pub declarators: Vec<InitDeclarator>,
}

#[derive(Drop)]
pub struct InitDeclarator {
    pub declarator: Declarator,
    pub init: Option<Initialiser>,
}

/// A statement (C90 6.6). Its place is that of its first token.
#[derive(Drop)]
#[cycle(stmt)]
pub struct Stmt {
    pub pos: Pos,
    pub kind: StmtKind,
}

#[derive(Drop)]
#[cycle(stmt)]
pub enum StmtKind {
    Label(Name, Box<Stmt>),
    Case(Expr, Box<Stmt>),
    Default(Box<Stmt>),
    Block(Vec<Decl>, Vec<Stmt>),
    Eval(Option<Expr>),
    If(Expr, Box<Stmt>, Option<Box<Stmt>>),
    Switch(Expr, Box<Stmt>),
    While(Expr, Box<Stmt>),
    DoWhile(Box<Stmt>, Expr),
    For(Option<Expr>, Option<Expr>, Option<Expr>, Box<Stmt>),
    Goto(Name),
    Continue,
    Break,
    Return(Option<Expr>),
}

/// A function definition (C90 6.7.1); the declarations are those of an old-style one.
#[derive(Drop)]
pub struct Function {
    pub specifiers: Specifiers,
    pub declarator: Declarator,
    pub declarations: Vec<Decl>,
    pub body: Stmt,
}

#[derive(Drop)]
pub enum Item {
    Decl(Decl),
    Function(Function),
}

/// A translation unit (C90 6.7).
#[derive(Drop)]
pub struct Unit {
    pub items: Vec<Item>,
}
