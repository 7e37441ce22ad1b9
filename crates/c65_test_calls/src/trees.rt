// Depths of trees made by hand.
use c65_base::{BinaryOp, Name, Pos};
use c65_ints::IntType;
use c65_tree::{
    Declarator, Enumerator, Expr, ExprKind, Params, Specifier, SpecifierKind, Specifiers, TypeName,
    Unit, is_within, nodes, with_enumerator, with_expr,
};
use std::alloc::{AllocError, Global};

const AT: Pos = Pos { file: 0, line: 1 };

fn one() -> Expr {
    let kind = ExprKind::Number(IntType::Int, 1);
    Expr { pos: AT, kind }
}

fn name() -> Expr {
    Expr::name(AT, Name(7))
}

/// The least depth within which an expression is, if it is within 300.
fn least_depth(e: &Expr) -> u16 {
    for depth in 0..300 {
        if is_within(e, depth) {
            return depth;
        }
    }
    300
}

fn depth_of(e: Expr) -> u16 {
    let depth = least_depth(&e);
    drop(e);
    depth
}

fn int(alloc: Global) -> Result<Specifiers, AllocError> {
    let kind = SpecifierKind::Int;
    let items = Vec::from_array(alloc, [Specifier { pos: AT, kind }])?;
    Ok(Specifiers::new(AT, items))
}

/// A type name of specifiers and the declarator that was made for them.
fn named(
    specifiers: Specifiers,
    declarator: Result<Declarator, AllocError>,
) -> Result<TypeName, AllocError> {
    match declarator {
        Ok(declarator) => Ok(TypeName::new(specifiers, declarator)),
        Err(refused) => {
            drop(specifiers);
            Err(refused)
        }
    }
}

/// `((..1..))`, 255 pairs.
fn parentheses(alloc: Global) -> Result<Expr, AllocError> {
    let mut e = one();
    for _ in 0..255 {
        e = Expr::paren(alloc, AT, e)?;
    }
    Ok(e)
}

/// `x[(1)]`
fn indexed(alloc: Global) -> Result<Expr, AllocError> {
    let inner = Expr::paren(alloc, AT, one())?;
    Expr::index(alloc, AT, name(), inner)
}

/// `x(1, x[(1)])`
fn call(alloc: Global) -> Result<Expr, AllocError> {
    let arguments = with_expr(Vec::new(alloc), one())?;
    match indexed(alloc) {
        Ok(second) => Expr::call(alloc, AT, name(), with_expr(arguments, second)?),
        Err(refused) => {
            drop(arguments);
            Err(refused)
        }
    }
}

/// `int [1]`
fn int_array(alloc: Global) -> Result<TypeName, AllocError> {
    let specifiers = int(alloc)?;
    named(
        specifiers,
        Declarator::array(alloc, AT, Declarator::nameless(AT), one()),
    )
}

/// `enum { x = 1 + 1, x }`
fn enumeration(alloc: Global) -> Result<Specifiers, AllocError> {
    let two = Expr::binary(alloc, AT, BinaryOp::Add, one(), one())?;
    let first = Enumerator::new(AT, Name(7), Some(two));
    let items = with_enumerator(Vec::new(alloc), first)?;
    let items = with_enumerator(items, Enumerator::new(AT, Name(7), None))?;
    let specifiers = Vec::from_array(alloc, [Specifier::enumeration(AT, None, items)])?;
    Ok(Specifiers::new(AT, specifiers))
}

/// `(*)()`
fn function_pointer(alloc: Global) -> Result<Declarator, AllocError> {
    let pointer = Declarator::pointer(alloc, AT, false, false, Declarator::nameless(AT))?;
    let group = Declarator::grouped(alloc, AT, pointer)?;
    Declarator::function(alloc, AT, group, Params::empty())
}

/// `enum { x = 1 + 1, x } (*)()`
fn enum_pointer(alloc: Global) -> Result<TypeName, AllocError> {
    let specifiers = enumeration(alloc)?;
    named(specifiers, function_pointer(alloc))
}

/// The size of `int [1]`.
fn array_size(alloc: Global) -> Result<Expr, AllocError> {
    Expr::sizeof_type(alloc, AT, int_array(alloc)?)
}

/// The size of `enum { x = 1 + 1, x } (*)()`.
fn pointer_size(alloc: Global) -> Result<Expr, AllocError> {
    Expr::sizeof_type(alloc, AT, enum_pointer(alloc)?)
}

/// The depths of these trees.
fn depths(alloc: Global) -> Result<[u16; 5], AllocError> {
    let leaf = depth_of(one());
    let pairs = depth_of(parentheses(alloc)?);
    let call = depth_of(call(alloc)?);
    let array = depth_of(array_size(alloc)?);
    let pointer = depth_of(pointer_size(alloc)?);
    Ok([leaf, pairs, call, array, pointer])
}

fn empty_nodes(alloc: Global) -> u64 {
    let items = Vec::new(alloc);
    let unit = Unit { items };
    let count = nodes(&unit);
    drop(unit);
    count
}

pub fn show_depths(rt: &HostRuntime) -> Result<(), anyhow::Error> {
    println!(rt; "= trees")?;
    println!(rt; "nodes of an empty unit: {}", empty_nodes(rt.alloc()))?;
    println!(rt; "depths: {:?}", depths(rt.alloc())?)?;
    Ok(())
}
