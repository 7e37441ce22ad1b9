// Constants that operators are folded to.
use c65_base::{BinaryOp, boxed_pair};
use c65_csem::{TExpr, TKind, int_type};
use c65_fold::{constant, fold};
use c65_ints::IntType;
use std::alloc::{AllocError, Global};

fn number(value: i64) -> TExpr {
    TExpr {
        ty: int_type(IntType::Int),
        kind: TKind::Const(value),
    }
}

/// An operator on two values of type int.
fn binary(alloc: Global, op: BinaryOp, a: TExpr, b: TExpr) -> Result<TExpr, AllocError> {
    let (a, b) = boxed_pair(alloc, a, b)?;
    Ok(TExpr {
        ty: int_type(IntType::Int),
        kind: TKind::Binary(op, a, b),
    })
}

/// The value of an object of type int.
fn loaded(alloc: Global) -> Result<TExpr, AllocError> {
    let place = TExpr {
        ty: int_type(IntType::Int),
        kind: TKind::Object(0),
    };
    let place = Box::new(alloc, place)?;
    Ok(TExpr {
        ty: int_type(IntType::Int),
        kind: TKind::Load(place),
    })
}

/// The left operand of an operator, where it is a constant.
fn left_of(e: &TExpr) -> Option<i64> {
    match &e.kind {
        TKind::Binary(_, left, _) => match &left.kind {
            TKind::Const(value) => Some(*value),
            _ => None,
        },
        _ => None,
    }
}

/// The left operand of an operator behind folding, where it is a constant.
fn left_folded(e: TExpr) -> Option<i64> {
    let mut e = e;
    fold(&mut e);
    let left = left_of(&e);
    drop(e);
    left
}

/// `2*3+x`, of which the product is left as a constant.
fn product_and_object(alloc: Global) -> Result<Option<i64>, AllocError> {
    let product = binary(alloc, BinaryOp::Mul, number(2), number(3))?;
    match loaded(alloc) {
        Ok(object) => Ok(left_folded(binary(alloc, BinaryOp::Add, product, object)?)),
        Err(refused) => {
            drop(product);
            Err(refused)
        }
    }
}

/// `1/0`, which stays.
fn quotient_by_zero(alloc: Global) -> Result<Option<i64>, AllocError> {
    let quotient = binary(alloc, BinaryOp::Div, number(1), number(0))?;
    Ok(left_folded(quotient))
}

fn folded(alloc: Global, op: BinaryOp, a: i64, b: i64) -> Result<Option<i64>, AllocError> {
    let e = binary(alloc, op, number(a), number(b))?;
    let value = constant(&e);
    drop(e);
    Ok(value)
}

const ROWS: [(BinaryOp, i64, i64); 12] = [
    (BinaryOp::Mul, 200, 200),
    (BinaryOp::Div, -7, 2),
    (BinaryOp::Rem, -7, 2),
    (BinaryOp::Div, 1, 0),
    (BinaryOp::Add, 32_767, 1),
    (BinaryOp::Shl, 1, 15),
    (BinaryOp::Shl, 1, 16),
    (BinaryOp::Shr, -1, 1),
    (BinaryOp::Lt, -1, 1),
    (BinaryOp::BitAnd, -2, 7),
    (BinaryOp::BitXor, -1, 1),
    (BinaryOp::BitOr, -4, 1),
];

pub fn show_folding(rt: &HostRuntime) -> Result<(), anyhow::Error> {
    let alloc = rt.alloc();
    println!(rt; "= operators on constants of type int")?;
    for (op, a, b) in ROWS {
        println!(rt; "{op:?} {a} {b}: {:?}", folded(alloc, op, a, b)?)?;
    }
    println!(rt; "left of 2*3+x: {:?}", product_and_object(alloc)?)?;
    println!(rt; "left of 1/0: {:?}", quotient_by_zero(alloc)?)?;
    Ok(())
}
