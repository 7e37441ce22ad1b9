// Typed trees of made syntax trees: the types of operators' results for each pair of integer types (C90 6.2.1, 6.3), names that
// were not declared, and the scope of a parameter's tag.
use c65_base::{BinaryOp, Code, Name, Options, Pos, Refusal};
use c65_csem::{TExpr, int_type};
use c65_ctype::CType;
use c65_elab::{Heading, Scope, elab_expr, elab_heading};
use c65_ints::IntType;
use c65_tree::{
    Declarator, Expr, MemberDecl, MemberDeclarator, Param, Params, Specifier, SpecifierKind,
    Specifiers,
};
use std::alloc::{AllocError, Global};

const HERE: Pos = Pos { file: 0, line: 1 };

const KINDS: [IntType; 8] = [
    IntType::UChar,
    IntType::SChar,
    IntType::Short,
    IntType::UShort,
    IntType::Int,
    IntType::UInt,
    IntType::Long,
    IntType::ULong,
];

const OPERATORS: [BinaryOp; 16] = [
    BinaryOp::Mul,
    BinaryOp::Div,
    BinaryOp::Rem,
    BinaryOp::Add,
    BinaryOp::Sub,
    BinaryOp::Shl,
    BinaryOp::Shr,
    BinaryOp::Lt,
    BinaryOp::Gt,
    BinaryOp::Le,
    BinaryOp::Ge,
    BinaryOp::Eq,
    BinaryOp::Ne,
    BinaryOp::BitAnd,
    BinaryOp::BitXor,
    BinaryOp::BitOr,
];

fn scope(alloc: Global) -> Result<Scope, Refusal> {
    Scope::new(alloc, &Options::none(), Name(0))
}

fn one(kind: IntType) -> Expr {
    Expr::number(HERE, kind, 1)
}

/// The typed tree of an expression in a scope of its own.
fn elaborated(alloc: Global, tree: &Expr) -> Result<TExpr, Refusal> {
    let mut scope = scope(alloc)?;
    let typed = elab_expr(alloc, &mut scope, tree);
    drop(scope);
    typed
}

/// The type of a typed tree, if it is an integer type.
fn int_of(typed: TExpr) -> Option<IntType> {
    let kind = match &typed.ty.ty {
        CType::Int(kind) => Some(*kind),
        _ => None,
    };
    drop(typed);
    kind
}

/// The type of an operator's result at constants of two types, if it is an integer type.
fn result(alloc: Global, op: BinaryOp, a: IntType, b: IntType) -> Result<Option<IntType>, Refusal> {
    let tree = Expr::binary(alloc, HERE, op, one(a), one(b))?;
    let typed = elaborated(alloc, &tree);
    drop(tree);
    Ok(int_of(typed?))
}

/// Prints the types of an operator's results at a left operand of this type.
fn show_results(rt: &HostRuntime, op: BinaryOp, a: IntType) -> Result<(), anyhow::Error> {
    print!(rt; "{a:?} {op:?}:")?;
    for b in KINDS {
        match result(rt.alloc(), op, a, b)? {
            Some(kind) => print!(rt; " {kind:?}")?,
            None => print!(rt; " other")?,
        }
    }
    println!(rt; "")?;
    Ok(())
}

/// The code of a refusal with a place.
fn code(answer: Result<TExpr, Refusal>) -> Option<Code> {
    match answer {
        Err(Refusal::At { code, .. }) => Some(code),
        Err(_) => None,
        Ok(typed) => {
            drop(typed);
            None
        }
    }
}

/// Whether a tree is refused for a name that was not declared.
fn is_undeclared(alloc: Global, scope: &mut Scope, tree: Expr) -> bool {
    let typed = elab_expr(alloc, scope, &tree);
    drop(tree);
    code(typed) == Some(Code::Undeclared)
}

/// Whether `1 + 1L` is of type long.
fn is_sum_long(alloc: Global, scope: &mut Scope) -> Result<bool, Refusal> {
    let left = one(IntType::Int);
    let sum = Expr::binary(alloc, HERE, BinaryOp::Add, left, one(IntType::Long))?;
    let typed = elab_expr(alloc, scope, &sum);
    drop(sum);
    Ok(int_of(typed?) == Some(IntType::Long))
}

/// The answers of `expressions`, in a scope.
fn expressions_in(alloc: Global, scope: &mut Scope) -> Result<[bool; 3], Refusal> {
    let long = is_sum_long(alloc, scope)?;
    let undeclared = is_undeclared(alloc, scope, Expr::name(HERE, Name(1)));
    let place = Expr::sizeof_expr(alloc, HERE, Expr::name(HERE, Name(1)))?;
    Ok([long, undeclared, is_undeclared(alloc, scope, place)])
}

/// Whether `1 + 1L` is of type long, and a name that was not declared is refused, under `sizeof`
/// too.
fn expressions(alloc: Global) -> Result<[bool; 3], Refusal> {
    let mut scope = scope(alloc)?;
    let answers = expressions_in(alloc, &mut scope);
    drop(scope);
    answers
}

fn int(alloc: Global) -> Result<Specifiers, AllocError> {
    let mut items = Vec::new(alloc);
    let kind = SpecifierKind::Int;
    items.push(Specifier { pos: HERE, kind })?;
    Ok(Specifiers::new(HERE, items))
}

/// `struct s { int m; }`, where s is name 2 and m is name 3.
fn structure(alloc: Global) -> Result<Specifiers, AllocError> {
    let mut members = Vec::new(alloc);
    let declarator = Declarator::named(HERE, Name(3));
    members.push(MemberDeclarator::new(HERE, Some(declarator), None))?;
    let mut decls = Vec::new(alloc);
    decls.push(MemberDecl::new(int(alloc)?, members))?;
    let mut items = Vec::new(alloc);
    items.push(Specifier::tagged(HERE, false, Some(Name(2)), decls))?;
    Ok(Specifiers::new(HERE, items))
}

/// The declarator `f(struct s { int m; } *p)`.
fn heading(alloc: Global) -> Result<Declarator, AllocError> {
    let name = Declarator::named(HERE, Name(4));
    let pointer = Declarator::pointer(alloc, HERE, false, false, name)?;
    let mut params = Vec::new(alloc);
    params.push(Param::new(structure(alloc)?, pointer))?;
    let name = Declarator::named(HERE, Name(5));
    Declarator::function(alloc, HERE, name, Params::types(params, false))
}

/// Whether a heading has a name.
fn is_named(heading: Heading) -> bool {
    let named = heading.name.is_some();
    drop(heading);
    named
}

/// The heading of `int f(struct s { int m; } *p)` in a scope.
fn headed(alloc: Global, scope: &mut Scope) -> Result<Heading, Refusal> {
    let tree = heading(alloc)?;
    let base = int_type(IntType::Int);
    let headed = elab_heading(alloc, scope, &base, &tree);
    drop(base);
    drop(tree);
    headed
}

/// The answers of `tags`, in a scope.
fn tags_in(alloc: Global, scope: &mut Scope) -> Result<[bool; 4], Refusal> {
    let named = is_named(headed(alloc, scope)?);
    let undeclared = scope.find(Name(4)).is_none();
    scope.open(false)?;
    let inside = scope.own_tag(Name(2)).is_some();
    scope.close();
    Ok([named, undeclared, inside, scope.find_tag(Name(2)).is_none()])
}

/// Whether the tag of a definition's parameter is seen in the body alone, and the parameter's name
/// is not declared yet.
fn tags(alloc: Global) -> Result<[bool; 4], Refusal> {
    let mut scope = scope(alloc)?;
    let answers = tags_in(alloc, &mut scope);
    drop(scope);
    answers
}

/// Prints the types of operators' results, and what holds of the other trees.
pub fn show_trees(rt: &HostRuntime) -> Result<(), anyhow::Error> {
    for op in OPERATORS {
        for a in KINDS {
            show_results(rt, op, a)?;
        }
    }
    println!(rt; "expressions {:?}", expressions(rt.alloc())?)?;
    println!(rt; "tags {:?}", tags(rt.alloc())?)?;
    Ok(())
}
