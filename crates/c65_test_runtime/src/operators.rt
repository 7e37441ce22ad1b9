// Each operator on the edge values of its type and on 1,000 made values, against whole numbers.
use crate::arithmetic::{cut, expected, expected_unary};
use crate::calls::{Given, call, made, stack_place, upper};
use crate::placing::Runtime;
use c65_base::Refusal;
use c65_code::{Routine, TosOp, UnaryRoutine, Width};

const EDGES: [u32; 14] = [
    0,
    1,
    2,
    127,
    128,
    255,
    256,
    32_767,
    32_768,
    65_535,
    65_536,
    0x7FFF_FFFF,
    0x8000_0000,
    0xFFFF_FFFF,
];

const MADE: u32 = 1_000;

// A count of a shift is below the number of bits.
fn operand(op: TosOp, width: Width, value: u32) -> u32 {
    match (op, width) {
        (TosOp::Shl | TosOp::Shr | TosOp::Asr, Width::Ax) => value % 16,
        (TosOp::Shl | TosOp::Shr | TosOp::Asr, Width::Eax) => value % 32,
        _ => cut(width, value),
    }
}

fn dropped(width: Width) -> u16 {
    match width {
        Width::Ax => 2,
        Width::Eax => 4,
    }
}

// The orders answer a word.
fn answered(op: TosOp, width: Width, eax: u32) -> u32 {
    match op {
        TosOp::Eq | TosOp::Ne | TosOp::Lt | TosOp::Le | TosOp::Gt | TosOp::Ge => {
            cut(Width::Ax, eax)
        }
        TosOp::ULt | TosOp::ULe | TosOp::UGt | TosOp::UGe => cut(Width::Ax, eax),
        _ => cut(width, eax),
    }
}

// 1 where the call gives the whole number, pops its operand, keeps what it must and takes no more rows.
fn is_right(
    runtime: &mut Runtime,
    (op, width): (TosOp, Width),
    (left, right): (u32, u32),
    sp: u16,
    most: u32,
) -> Result<u32, Refusal> {
    let right = operand(op, width, right);
    let given = Given {
        eax: right,
        y: 0,
        sp,
        tos: left,
    };
    let after = call(runtime, Routine::Tos(op, width), given)?;
    let answer = i64::from(answered(op, width, after.eax));
    let want = expected(op, width, cut(width, left), right).unwrap_or(answer);
    let moved = after.sp == sp.wrapping_add(dropped(width));
    let fits = after.keeps && after.lowest >= 229 && after.rows <= most;
    Ok(if answer == want && moved && fits {
        1
    } else {
        0
    })
}

/// How many calls of an operator on two numbers are right, of 1,196.
pub fn right_pairs(
    runtime: &mut Runtime,
    op: TosOp,
    width: Width,
    most: u32,
) -> Result<u32, Refusal> {
    let mut right = 0_u32;
    for a in EDGES {
        for b in EDGES {
            right = right.wrapping_add(is_right(runtime, (op, width), (a, b), 0xFA00, most)?);
        }
    }
    let mut seed = 6_502;
    for index in 0..MADE {
        seed = made(seed);
        let (a, sp) = (upper(seed), stack_place(seed));
        seed = made(seed);
        let b = if index % 4 == 0 { a } else { upper(seed) };
        right = right.wrapping_add(is_right(runtime, (op, width), (a, b), sp, most)?);
    }
    Ok(right)
}

fn is_right_alone(
    runtime: &mut Runtime,
    (op, width): (UnaryRoutine, Width),
    value: u32,
    most: u32,
) -> Result<u32, Refusal> {
    let given = Given {
        eax: value,
        y: 0,
        sp: 0xFA00,
        tos: 0x1234_5678,
    };
    let after = call(runtime, Routine::Unary(op, width), given)?;
    let shown = match op {
        UnaryRoutine::BNeg => Width::Ax,
        _ => width,
    };
    let answer = i64::from(cut(shown, after.eax));
    let same = answer == expected_unary(op, width, cut(width, value));
    let fits = after.sp == 0xFA00 && after.keeps && after.rows <= most;
    Ok(if same && fits { 1 } else { 0 })
}

/// How many calls of an operator on one number are right, of 1,014.
pub fn right_numbers(
    runtime: &mut Runtime,
    op: UnaryRoutine,
    width: Width,
    most: u32,
) -> Result<u32, Refusal> {
    let mut right = 0_u32;
    for value in EDGES {
        right = right.wrapping_add(is_right_alone(runtime, (op, width), value, most)?);
    }
    let mut seed = 6_502;
    for _ in 0..MADE {
        seed = made(seed);
        right = right.wrapping_add(is_right_alone(runtime, (op, width), upper(seed), most)?);
    }
    Ok(right)
}
