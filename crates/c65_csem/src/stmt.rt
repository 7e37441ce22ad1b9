// Typed statements (C90 6.6).
ghost use Rattle.std.specs.Prelude.{◌≡◌};
ghost use Rattle.c65_csem.specs.Trees.{block};
ghost use Rattle.c65_csem.specs.Views.{stmt_of, stmts_of};

use crate::expr::TExpr;

#[derive(Drop)]
pub enum TStmt {
    Empty,
    /// An expression whose value is not used.
    Eval(TExpr),
    /// The initial value of an automatic object, stored at a byte of it; a structure or union is
    /// copied there from the place that the tree names.
    Set(u32, u32, TExpr),
    /// All bytes of an automatic object become zero.
    Clear(u32),
    /// A block with the objects that live in it.
    Block(Vec<u32>, Vec<TStmt>),
    If(TExpr, Box<TStmt>, Box<TStmt>),
    While(TExpr, Box<TStmt>),
    DoWhile(Box<TStmt>, TExpr),
    For(Option<TExpr>, Option<TExpr>, Option<TExpr>, Box<TStmt>),
    Switch(TExpr, Box<TStmt>),
    /// A case label with its value, converted to the type of its switch.
    Case(i64, Box<TStmt>),
    Default(Box<TStmt>),
    /// A label, by its number in the function.
    Label(u32, Box<TStmt>),
    Goto(u32),
    Break,
    Continue,
    Return(Option<TExpr>),
}

impl TStmt {
    /// A block of these statements, in which these objects live.
    pub fn block(objects: Vec<u32>, stmts: Vec<TStmt>) -> TStmt
        ensures { stmt_of result ≡ block objects.items (stmts_of stmts.items) }
    {
        TStmt::Block(objects, stmts)
    }
}
