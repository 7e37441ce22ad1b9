// What the operators are in whole numbers.
use c65_code::{TosOp, UnaryRoutine, Width};

/// Two to the number of bits.
pub fn size(width: Width) -> i64 {
    match width {
        Width::Ax => 65_536,
        Width::Eax => 4_294_967_296,
    }
}

/// The value of the lower bits.
pub fn cut(width: Width, value: u32) -> u32 {
    match width {
        Width::Ax => value % 65_536,
        Width::Eax => value,
    }
}

/// The value with its sign.
pub fn signed(width: Width, value: i64) -> i64 {
    if value < size(width) / 2 {
        value
    } else {
        value.wrapping_sub(size(width))
    }
}

// From 0 up to the size.
fn wrapped(width: Width, value: i64) -> i64 {
    match width {
        Width::Ax => value.wrapping_rem_euclid(65_536),
        Width::Eax => value.wrapping_rem_euclid(4_294_967_296),
    }
}

fn times_two(value: i64, count: i64) -> i64 {
    let mut product = value;
    for _ in 0..count {
        product = product.wrapping_mul(2);
    }
    product
}

// Rounded down.
fn halved(value: i64, count: i64) -> i64 {
    let mut rest = value;
    for _ in 0..count {
        rest = rest.wrapping_div_euclid(2);
    }
    rest
}

fn truth(value: bool) -> i64 {
    if value { 1 } else { 0 }
}

// The operators that give a number; none where C90 leaves the value open, which is a divisor of 0.
fn number(op: TosOp, width: Width, left: i64, right: i64) -> Option<i64> {
    let (below, from) = (signed(width, left), signed(width, right));
    let value = match op {
        TosOp::Add => left.wrapping_add(right),
        TosOp::Sub => left.wrapping_sub(right),
        TosOp::Mul => left.wrapping_mul(right),
        TosOp::And => left & right,
        TosOp::Or => left | right,
        TosOp::Xor => left ^ right,
        TosOp::UDiv => left.checked_div(right)?,
        TosOp::UMod => left.checked_rem(right)?,
        TosOp::Div => below.checked_div(from)?,
        TosOp::Mod => below.checked_rem(from)?,
        TosOp::Shl => times_two(left, right),
        TosOp::Shr => halved(left, right),
        TosOp::Asr => halved(below, right),
        _ => order(op, width, left, right),
    };
    Some(wrapped(width, value))
}

fn order(op: TosOp, width: Width, left: i64, right: i64) -> i64 {
    let (below, from) = (signed(width, left), signed(width, right));
    truth(match op {
        TosOp::Eq => left == right,
        TosOp::Ne => left != right,
        TosOp::Lt => below < from,
        TosOp::Le => below <= from,
        TosOp::Gt => below > from,
        TosOp::Ge => below >= from,
        TosOp::ULt => left < right,
        TosOp::ULe => left <= right,
        TosOp::UGt => left > right,
        _ => left >= right,
    })
}

/// What an operator gives; none where C90 leaves it open.
pub fn expected(op: TosOp, width: Width, left: u32, right: u32) -> Option<i64> {
    number(op, width, i64::from(left), i64::from(right))
}

/// What an operator on one value gives.
pub fn expected_unary(op: UnaryRoutine, width: Width, value: u32) -> i64 {
    let value = i64::from(value);
    let result = match op {
        UnaryRoutine::Neg => value.wrapping_neg(),
        UnaryRoutine::Compl => value.wrapping_neg().wrapping_sub(1),
        UnaryRoutine::Shl1 => value.wrapping_mul(2),
        UnaryRoutine::Shr1 => halved(value, 1),
        UnaryRoutine::Asr1 => halved(signed(width, value), 1),
        UnaryRoutine::BNeg => truth(value == 0),
    };
    wrapped(width, result)
}
