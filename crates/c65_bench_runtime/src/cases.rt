// The routines that are measured, and the states.
use c65_code::{Count, Routine, TosOp, UnaryRoutine, Width};
use std::alloc::{AllocError, Global};

/// EAX, Y and the four bytes at sp.
#[derive(Clone, Copy)]
pub struct Case {
    pub eax: u32,
    pub y: u8,
    pub tos: u32,
}

const PLAIN: [Routine; 27] = [
    Routine::PushA,
    Routine::PushAx,
    Routine::PushA0,
    Routine::Push0,
    Routine::PushEax,
    Routine::PopA,
    Routine::PopAx,
    Routine::PopEax,
    Routine::AddYSp,
    Routine::SubYSp,
    Routine::LdAxYSp,
    Routine::LdAx0Sp,
    Routine::LdEaxYSp,
    Routine::StAxYSp,
    Routine::StAx0Sp,
    Routine::StEaxYSp,
    Routine::LdAi,
    Routine::LdAxi,
    Routine::LdEaxi,
    Routine::StATos,
    Routine::StAxTos,
    Routine::StEaxTos,
    Routine::SignA,
    Routine::LongAx,
    Routine::ULongAx,
    Routine::SaveRegs,
    Routine::RestRegs,
];

const COUNTS: [Count; 8] = [
    Count::One,
    Count::Two,
    Count::Three,
    Count::Four,
    Count::Five,
    Count::Six,
    Count::Seven,
    Count::Eight,
];

const OPERATORS: [TosOp; 23] = [
    TosOp::Add,
    TosOp::Sub,
    TosOp::And,
    TosOp::Or,
    TosOp::Xor,
    TosOp::Eq,
    TosOp::Ne,
    TosOp::Lt,
    TosOp::Le,
    TosOp::Gt,
    TosOp::Ge,
    TosOp::ULt,
    TosOp::ULe,
    TosOp::UGt,
    TosOp::UGe,
    TosOp::Mul,
    TosOp::Div,
    TosOp::Mod,
    TosOp::UDiv,
    TosOp::UMod,
    TosOp::Shl,
    TosOp::Shr,
    TosOp::Asr,
];

const UNARY: [UnaryRoutine; 6] = [
    UnaryRoutine::Neg,
    UnaryRoutine::Compl,
    UnaryRoutine::Shl1,
    UnaryRoutine::Shr1,
    UnaryRoutine::Asr1,
    UnaryRoutine::BNeg,
];

/// The routines, in the order in which they are printed.
pub fn routines(alloc: Global) -> Result<Vec<Routine>, AllocError> {
    let mut routines = Vec::from_slice(alloc, &PLAIN)?;
    for count in COUNTS {
        routines.push(Routine::IncSp(count))?;
        routines.push(Routine::DecSp(count))?;
    }
    for op in UNARY {
        routines.push(Routine::Unary(op, Width::Ax))?;
        routines.push(Routine::Unary(op, Width::Eax))?;
    }
    for op in OPERATORS {
        routines.push(Routine::Tos(op, Width::Ax))?;
        routines.push(Routine::Tos(op, Width::Eax))?;
    }
    Ok(routines)
}

/// A typical state for a routine: pointers lead to $4000, counts are 5, divisors $123.
pub fn case_of(which: Routine) -> Case {
    let eax = match which {
        Routine::LdAi | Routine::LdAxi | Routine::LdEaxi => 0x4000,
        Routine::Tos(TosOp::Shl | TosOp::Shr | TosOp::Asr, _) => 5,
        Routine::Tos(TosOp::Mul | TosOp::Div | TosOp::Mod, _) => 0x0123,
        Routine::Tos(TosOp::UDiv | TosOp::UMod, _) => 0x0123,
        _ => 0x0001_1234,
    };
    let tos = match which {
        Routine::StATos | Routine::StAxTos | Routine::StEaxTos => 0x4000,
        _ => 0x0001_2345,
    };
    Case { eax, y: 4, tos }
}
