// Expressions, and the specifiers and declarators of types, which hold each other.
use c65_base::{BinaryOp, Name, Pos, StepKind, Text as Bytes, UnaryOp};
use c65_ints::IntType;

/// An expression (C90 6.3). Its place is that of its operator, name or constant: the operator's
/// token, `(` of a parenthesis, a cast or a call, `[` of an index, `?` of a conditional, `sizeof`.
#[derive(Drop)]
#[cycle(tree)]
pub struct Expr {
    pub pos: Pos,
    pub kind: ExprKind,
}

#[derive(Drop)]
#[cycle(tree)]
pub enum ExprKind {
    Name(Name),
    Number(IntType, u32),
    /// The bytes of a string literal, without its last zero.
    Text(Bytes),
    Paren(Box<Expr>),
    Index(Box<Expr>, Box<Expr>),
    Call(Box<Expr>, Vec<Expr>),
    /// A member; the flag says that it is reached by `->`.
    Member(Box<Expr>, bool, Name),
    Step(StepKind, Box<Expr>),
    Unary(UnaryOp, Box<Expr>),
    SizeofExpr(Box<Expr>),
    SizeofType(Box<TypeName>),
    Cast(Box<TypeName>, Box<Expr>),
    Binary(BinaryOp, Box<Expr>, Box<Expr>),
    And(Box<Expr>, Box<Expr>),
    Or(Box<Expr>, Box<Expr>),
    Cond(Box<Expr>, Box<Expr>, Box<Expr>),
    /// An assignment; with an operator a compound one.
    Assign(Option<BinaryOp>, Box<Expr>, Box<Expr>),
    Comma(Box<Expr>, Box<Expr>),
}

/// A type name (C90 6.5.5): its declarator has an `Abstract` in the name's place.
#[derive(Drop)]
#[cycle(tree)]
pub struct TypeName {
    pub specifiers: Specifiers,
    pub declarator: Declarator,
}

/// Declaration specifiers (C90 6.5) in their order. Their place is that of the first of them, and
/// of the declarator where there are none.
#[derive(Drop)]
#[cycle(tree)]
pub struct Specifiers {
    pub pos: Pos,
    pub items: Vec<Specifier>,
}

#[derive(Drop)]
#[cycle(tree)]
pub struct Specifier {
    pub pos: Pos,
    pub kind: SpecifierKind,
}

#[derive(Drop)]
#[cycle(tree)]
pub enum SpecifierKind {
    Storage(Storage),
    Const,
    Volatile,
    Void,
    Char,
    Short,
    Int,
    Long,
    Float,
    Double,
    Signed,
    Unsigned,
    Typedef(Name),
    /// A structure, or where the flag says so a union: its tag and its members.
    Tagged(bool, Option<Name>, Option<Vec<MemberDecl>>),
    Enum(Option<Name>, Option<Vec<Enumerator>>),
}

/// A storage-class specifier (C90 6.5.1).
#[derive(Clone, Copy, Debug, PartialEq, Eq)]
pub enum Storage {
    Typedef,
    Extern,
    Static,
    Auto,
    Register,
}

/// A declaration of members (C90 6.5.2.1).
#[derive(Drop)]
#[cycle(tree)]
pub struct MemberDecl {
    pub specifiers: Specifiers,
    pub declarators: Vec<MemberDeclarator>,
}

/// One member; a bit-field has a width, and then its declarator may lack. Its place is that of
/// its first token.
#[derive(Drop)]
#[cycle(tree)]
pub struct MemberDeclarator {
    pub pos: Pos,
    pub declarator: Option<Declarator>,
    pub width: Option<Expr>,
}

/// An enumerator (C90 6.5.2.2).
#[derive(Drop)]
#[cycle(tree)]
pub struct Enumerator {
    pub pos: Pos,
    pub name: Name,
    pub value: Option<Expr>,
}

/// A declarator (C90 6.5.4) or an abstract one (6.5.5). Its place is that of its own token: the
/// name, `(` of a parenthesis or of parameters, `[`, `*`, or the word of a calling convention.
#[derive(Drop)]
#[cycle(tree)]
pub struct Declarator {
    pub pos: Pos,
    pub kind: DeclaratorKind,
}

#[derive(Drop)]
#[cycle(tree)]
pub enum DeclaratorKind {
    /// No name. Its place is that of the token behind it.
    Abstract,
    Name(Name),
    Paren(Box<Declarator>),
    /// `__fastcall__`, or where the flag says so `__cdecl__`.
    Calling(bool, Box<Declarator>),
    /// A pointer; the flags say `const` and `volatile`.
    Pointer(bool, bool, Box<Declarator>),
    Array(Box<Declarator>, Option<Box<Expr>>),
    Function(Box<Declarator>, Params),
}

/// What stands between the parentheses of a function declarator.
#[derive(Drop)]
#[cycle(tree)]
pub enum Params {
    Empty,
    /// An identifier list (C90 6.5.4.3).
    Names(Vec<(Name, Pos)>),
    /// A parameter type list; the flag says that `...` ends it.
    Types(Vec<Param>, bool),
}

/// A parameter declaration.
#[derive(Drop)]
#[cycle(tree)]
pub struct Param {
    pub specifiers: Specifiers,
    pub declarator: Declarator,
}
