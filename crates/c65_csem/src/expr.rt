// Typed expressions (C90 6.3), with each conversion written out.
ghost use Rattle.std.specs.Prelude.{◌≡◌, IfOk};
ghost use Rattle.c65_ctype.specs.Views.{qty_of};
ghost use Rattle.c65_csem.specs.Trees.{node, call};
ghost use Rattle.c65_csem.specs.Views.{typed_of, nodes_of};
ghost use Rattle.c65_csem.specs.Places.{is_place};

use c65_base::{BinaryOp, StepKind, UnaryOp};
use c65_ctype::QType;
use c65_ints::IntType;
use std::alloc::{AllocError, Global};

/// An expression with its type. A value has a type without qualifiers; a place, and an expression
/// of structure or union type, has the type of the object that it names.
#[derive(Drop)]
#[cycle(trees)]
pub struct TExpr {
    pub ty: QType,
    pub kind: TKind,
}

#[derive(Drop)]
#[cycle(trees)]
pub enum TKind {
    /// A value of an integer type.
    Const(i64),
    /// A null pointer.
    Null,
    /// The array of a string literal, by its number.
    Literal(u32),
    /// An object, by its number.
    Object(u32),
    /// A function, by its number.
    Func(u32),
    /// What a pointer names.
    Deref(Box<TExpr>),
    /// A member of a structure or union, by its place among the members.
    Member(Box<TExpr>, u32),
    /// The value of a place.
    Load(Box<TExpr>),
    /// A pointer to a place.
    Address(Box<TExpr>),
    /// An array as a pointer to its first element, or a function as a pointer to it.
    Decay(Box<TExpr>),
    /// A value converted to the type of the node.
    Convert(Box<TExpr>),
    /// Only `Neg`, `BitNot` and `Not`.
    Unary(UnaryOp, Box<TExpr>),
    Binary(BinaryOp, Box<TExpr>, Box<TExpr>),
    And(Box<TExpr>, Box<TExpr>),
    Or(Box<TExpr>, Box<TExpr>),
    Cond(Box<TExpr>, Box<TExpr>, Box<TExpr>),
    Comma(Box<TExpr>, Box<TExpr>),
    /// A value stored into a place.
    Assign(Box<TExpr>, Box<TExpr>),
    /// Compound assignment to a number, and the type in which it computes.
    AssignOp(BinaryOp, IntType, Box<TExpr>, Box<TExpr>),
    /// `+=` and `-=` on a pointer.
    AssignStep(BinaryOp, Box<TExpr>, Box<TExpr>),
    Step(StepKind, Box<TExpr>),
    /// Assignment of a structure or union.
    Copy(Box<TExpr>, Box<TExpr>),
    Call(Box<TExpr>, Vec<TExpr>),
    /// A structure or union of at most four bytes as the argument of a call or the value of a return: the bytes of
    /// its place.
    Pack(Box<TExpr>),
    /// The structure or union that a call gives, stored in an unnamed object of its function: that object's place.
    Spill(u32, Box<TExpr>),
    /// The place behind the further arguments of a call with `...`.
    Rest,
}

impl TExpr {
    /// A call of a function with these arguments.
    pub fn call(
        alloc: Global,
        ty: QType,
        function: TExpr,
        arguments: Vec<TExpr>,
    ) -> Result<TExpr, AllocError>
        ensures { IfOk result (λ e. typed_of e ≡ node (qty_of ty) (call (typed_of function) (nodes_of arguments.items))) }
    {
        let function = Box::new(alloc, function)?;
        Ok(TExpr {
            ty,
            kind: TKind::Call(function, arguments),
        })
    }

    /// Whether the expression names an object or function.
    pub fn is_place(&self) -> bool
        ensures { result ≡ is_place (typed_of self.now) }
    {
        match &self.kind {
            TKind::Literal(_)
            | TKind::Object(_)
            | TKind::Func(_)
            | TKind::Deref(_)
            | TKind::Member(_, _) => true,
            _ => false,
        }
    }
}
