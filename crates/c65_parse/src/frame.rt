// What is open while trees are read, and what was read last.
ghost use Rattle.std.specs.Prelude.{◌≡◌, ◌∷◌, IfOk};
ghost use Rattle.c65_tree.specs.View.{expr_of, declarator_of};
ghost use Rattle.c65_parse.specs.Expressions.{hole_of, hole_of_frame, plug, ends, plug_frame};
ghost use Rattle.c65_parse.specs.Declarators.{takes_name, is_optional, derived, is_derived, plug_declarator};
ghost use Rattle.c65_parse.specs.Frames;
ghost use Rattle.c65_parse.specs.Views.{operation_of, frame_of, stack_of, next_of};

use c65_base::{Name, Pos};
use c65_parse_trees::{
    EnumeratorList, Infix, Listing, MeasuredDeclarator, MeasuredExpr, MeasuredExprs,
    MeasuredSpecifiers, MeasuredType, MemberDecls, MemberList, ParamList, Prefix, TagWord,
};
use c65_tree::push_last;
use std::alloc::{AllocError, Global};

/// Where a declarator stands, and so whether its name may lack and which it may be. The flag says
/// that a type specifier stands before it; without one no type's name is declared anew.
#[derive(Clone, Copy)]
pub enum Sort {
    Named(bool),
    Param(bool),
    Member(bool),
    Abstract,
}

/// What a type name in parentheses is for.
#[derive(Clone, Copy)]
pub enum TypeUse {
    Cast,
    Sizeof,
}

/// What stands before a declarator: a pointer's star, with its flags for `const` and `volatile`,
/// or a calling word, with its flag for `__cdecl__`.
#[derive(Clone, Copy)]
pub enum Derivation {
    Pointer(bool, bool),
    Calling(bool),
}

/// What a token does to the scope.
#[derive(Clone, Copy)]
pub enum Change {
    Nothing,
    Open,
    Declare(Name, bool),
    Close,
}

/// An operation that lacks its last operand.
#[derive(Drop)]
pub enum Operation {
    Prefix(Pos, Prefix),
    Cast(Pos, MeasuredType),
    Right(Pos, Infix, MeasuredExpr),
    Else(Pos, MeasuredExpr, MeasuredExpr),
}

/// A structure, union or enumeration whose word has been read.
#[derive(Drop)]
pub struct TagPart {
    pub outer: Listing,
    pub pos: Pos,
    pub word: TagWord,
}

/// A structure or union whose members are being read.
#[derive(Drop)]
pub struct Body {
    pub outer: Listing,
    pub pos: Pos,
    pub is_union: bool,
    pub tag: Option<Name>,
    pub decls: MemberDecls,
}

/// A declaration of members that is being read.
#[derive(Drop)]
pub struct MembersPart {
    pub body: Body,
    pub specifiers: MeasuredSpecifiers,
    pub members: MemberList,
}

/// An enumeration whose enumerators are being read.
#[derive(Drop)]
pub struct EnumPart {
    pub outer: Listing,
    pub pos: Pos,
    pub tag: Option<Name>,
    pub enumerators: EnumeratorList,
}

/// A function declarator whose parameters are being read.
#[derive(Drop)]
pub struct ParamsPart {
    pub pos: Pos,
    pub declarator: MeasuredDeclarator,
    pub params: ParamList,
}

/// A function declarator whose identifier list is being read.
#[derive(Drop)]
pub struct NamesPart {
    pub pos: Pos,
    pub declarator: MeasuredDeclarator,
    pub names: Vec<(Name, Pos)>,
}

/// A construct with a place for the tree that is read next. Each is one level of depth.
#[derive(Drop)]
pub enum Frame {
    Operation(Operation),
    Paren(Pos),
    Index(Pos, MeasuredExpr),
    Call(Pos, MeasuredExpr, MeasuredExprs),
    /// Behind `?`.
    Then(Pos, MeasuredExpr),
    /// A bound of an array.
    Bound(Pos, MeasuredDeclarator),
    /// A width of a bit-field, with the place of the member's first token.
    Width(MembersPart, Pos, Option<MeasuredDeclarator>),
    /// A value of an enumerator.
    Value(EnumPart, Name, Pos),
    /// The specifiers of a type name.
    Type(Pos, TypeUse),
    /// The declarator of a type name.
    TypeDeclarator(Pos, TypeUse, MeasuredSpecifiers),
    /// The specifiers of members.
    Members(Body),
    /// A declarator of a member, with the place of its first token.
    Member(MembersPart, Pos),
    /// The specifiers of a parameter.
    Params(ParamsPart),
    /// The declarator of a parameter.
    Param(ParamsPart, MeasuredSpecifiers),
    Group(Pos),
    Derived(Pos, Derivation),
}

/// What was read since the innermost construct was begun.
#[derive(Drop)]
pub enum Held {
    /// An operand is needed.
    Operand,
    /// A parenthesis where an operand is needed.
    Opened(Pos),
    Sizeof(Pos),
    SizeofOpened(Pos, Pos),
    /// A function and the parenthesis behind it.
    Called(Pos, MeasuredExpr),
    /// A structure and the dot or arrow behind it.
    Dotted(Pos, bool, MeasuredExpr),
    Expr(MeasuredExpr),
    Specifiers(Listing),
    Tag(TagPart),
    TagName(TagPart, Name),
    /// Whole declarations of members: another one or the end.
    MoreMembers(Body),
    /// A member is needed.
    Member(MembersPart),
    /// An enumerator is needed.
    Enumerator(EnumPart),
    EnumeratorName(EnumPart, Name, Pos),
    /// A declarator is needed.
    Declarator(Sort),
    /// A star and qualifiers.
    Qualifiers(Pos, bool, bool, Sort),
    /// A parenthesis where a declarator is needed whose name may lack.
    OpenedDeclarator(Pos, Sort),
    Declared(MeasuredDeclarator),
    OpenedBound(Pos, MeasuredDeclarator),
    OpenedParams(Pos, MeasuredDeclarator),
    /// Whole parameters and a comma.
    MoreParams(ParamsPart),
    Ellipsis(ParamsPart),
    /// Names of an identifier list, and a comma.
    Names(NamesPart),
    /// Names of an identifier list.
    NamesEnd(NamesPart),
}

/// A tree that has ended.
#[derive(Drop)]
pub enum Done {
    Expr(MeasuredExpr),
    Specifiers(MeasuredSpecifiers),
    Declarator(MeasuredDeclarator),
}

/// What is open, the innermost last, and what was read since.
#[derive(Drop)]
pub struct Open {
    pub frames: Vec<Frame>,
    pub held: Held,
}

/// What a token does: the reading goes on, ends before the token, or cannot go on within the limit,
/// or at all.
#[derive(Drop)]
pub enum Step {
    Go(Open, Change),
    Stop(Done),
    Deep,
    Fail,
}

impl Step {
    /// Nothing goes on; what was read is dropped.
    pub fn fail<T: Drop>(read: T) -> Step
        ensures { next_of result ≡ Frames.fail }
    {
        drop(read);
        Step::Fail
    }

    /// Only a deeper tree goes on; what was read is dropped.
    pub fn deep<T: Drop>(read: T) -> Step
        ensures { next_of result ≡ Frames.deep }
    {
        drop(read);
        Step::Deep
    }
}

/// What is open with one more construct, the innermost.
pub fn with_frame(frames: Vec<Frame>, frame: Frame) -> Result<Vec<Frame>, AllocError>
    ensures { IfOk result (λ r. stack_of r.items ≡ frame_of frame ∷ stack_of frames.items) }
{
    let mut frames = frames;
    push_last(&mut frames, frame)?;
    Ok(frames)
}

impl Sort {
    /// Whether a name may stand there that is a type's, or is none.
    pub fn takes_name(self, is_type: bool) -> bool
        ensures { result ≡ takes_name self is_type }
    {
        match self {
            Sort::Named(typed) | Sort::Param(typed) | Sort::Member(typed) => typed || !is_type,
            Sort::Abstract => false,
        }
    }

    /// Whether the name may lack.
    pub fn is_optional(self) -> bool
        ensures { result ≡ is_optional self }
    {
        matches!(self, Sort::Param(_) | Sort::Abstract)
    }
}

impl Derivation {
    /// The declarator behind this.
    pub fn plug(
        self,
        alloc: Global,
        pos: Pos,
        d: MeasuredDeclarator,
    ) -> Result<MeasuredDeclarator, AllocError>
        ensures { IfOk result (λ r. declarator_of r.declarator ≡ derived pos self (declarator_of d.declarator)) }
    {
        match self {
            Derivation::Pointer(constant, volatile) => {
                MeasuredDeclarator::pointer(alloc, pos, constant, volatile, d)
            }
            Derivation::Calling(cdecl) => MeasuredDeclarator::calling(alloc, pos, cdecl, d),
        }
    }
}

impl Operation {
    /// The least level of the operand that lacks.
    pub fn hole(&self) -> u32
        ensures { result ≡ hole_of (operation_of self.now) }
    {
        match self {
            Operation::Prefix(_, op) => op.right(),
            Operation::Cast(_, _) => 13,
            Operation::Right(_, op, _) => op.right(),
            Operation::Else(_, _, _) => 2,
        }
    }

    /// The operation with its last operand.
    pub fn plug(self, alloc: Global, e: MeasuredExpr) -> Result<MeasuredExpr, AllocError>
        ensures { IfOk result (λ r. expr_of r.expr ≡ plug (operation_of self) (expr_of e.expr)) }
    {
        match self {
            Operation::Prefix(pos, op) => MeasuredExpr::prefixed(alloc, pos, op, e),
            Operation::Cast(pos, t) => MeasuredExpr::cast(alloc, pos, t, e),
            Operation::Right(pos, op, a) => MeasuredExpr::joined(alloc, pos, op, a, e),
            Operation::Else(pos, c, a) => MeasuredExpr::conditional(alloc, pos, c, a, e),
        }
    }
}

impl Frame {
    /// The least level of the expression that lacks.
    pub fn hole(&self) -> u32
        ensures { result ≡ hole_of_frame (frame_of self.now) }
    {
        match self {
            Frame::Operation(operation) => operation.hole(),
            Frame::Call(_, _, _) => 1,
            Frame::Bound(_, _) | Frame::Width(_, _, _) | Frame::Value(_, _, _) => 2,
            _ => 0,
        }
    }

    /// Whether a token that goes on to this level ends the construct.
    pub fn ends(&self, rank: u32) -> bool
        ensures { result ≡ ends rank (frame_of self.now) }
    {
        match self {
            Frame::Operation(operation) => rank < operation.hole(),
            _ => false,
        }
    }

    /// An operation with its last operand; another construct gives the expression back.
    pub fn plug(self, alloc: Global, e: MeasuredExpr) -> Result<MeasuredExpr, AllocError>
        ensures { IfOk result (λ r. expr_of r.expr ≡ plug_frame (frame_of self) (expr_of e.expr)) }
    {
        match self {
            Frame::Operation(operation) => operation.plug(alloc, e),
            Frame::Paren(_)
            | Frame::Index(_, _)
            | Frame::Call(_, _, _)
            | Frame::Then(_, _)
            | Frame::Bound(_, _)
            | Frame::Width(_, _, _)
            | Frame::Value(_, _, _)
            | Frame::Type(_, _)
            | Frame::TypeDeclarator(_, _, _)
            | Frame::Members(_)
            | Frame::Member(_, _)
            | Frame::Params(_)
            | Frame::Param(_, _)
            | Frame::Group(_)
            | Frame::Derived(_, _) => {
                drop(self);
                Ok(e)
            }
        }
    }

    /// Whether this is what stands before a declarator.
    pub fn is_derived(&self) -> bool
        ensures { result ≡ is_derived (frame_of self.now) }
    {
        matches!(self, Frame::Derived(_, _))
    }

    /// What stands before a declarator with it; another construct gives the declarator back.
    pub fn plug_declarator(
        self,
        alloc: Global,
        d: MeasuredDeclarator,
    ) -> Result<MeasuredDeclarator, AllocError>
        ensures { IfOk result (λ r. declarator_of r.declarator ≡ plug_declarator (frame_of self) (declarator_of d.declarator)) }
    {
        match self {
            Frame::Derived(pos, how) => how.plug(alloc, pos, d),
            Frame::Operation(_)
            | Frame::Paren(_)
            | Frame::Index(_, _)
            | Frame::Call(_, _, _)
            | Frame::Then(_, _)
            | Frame::Bound(_, _)
            | Frame::Width(_, _, _)
            | Frame::Value(_, _, _)
            | Frame::Type(_, _)
            | Frame::TypeDeclarator(_, _, _)
            | Frame::Members(_)
            | Frame::Member(_, _)
            | Frame::Params(_)
            | Frame::Param(_, _)
            | Frame::Group(_) => {
                drop(self);
                Ok(d)
            }
        }
    }
}
