// The operators of expressions, and how tightly they hold (C90 6.3).
ghost use Rattle.std.specs.Prelude.{◌≡◌};
ghost use Rattle.c65_parse_trees.specs.Levels.{level_of_binary, level_of_infix, level_of_step, left_of_infix, right_of_infix, right_of_prefix};

use c65_base::{BinaryOp, StepKind, UnaryOp};

/// An operator before its operand (C90 6.3.3).
#[derive(Clone, Copy)]
pub enum Prefix {
    Unary(UnaryOp),
    Step(StepKind),
    Sizeof,
}

/// An operator between its operands (C90 6.3.5 to 6.3.17).
#[derive(Clone, Copy)]
pub enum Infix {
    Binary(BinaryOp),
    And,
    Or,
    Assign(Option<BinaryOp>),
    Comma,
}

/// The level of an operation with this operator.
pub fn binary_level(op: BinaryOp) -> u32
    ensures { result ≡ level_of_binary op }
{
    match op {
        BinaryOp::Mul | BinaryOp::Div | BinaryOp::Rem => 12,
        BinaryOp::Add | BinaryOp::Sub => 11,
        BinaryOp::Shl | BinaryOp::Shr => 10,
        BinaryOp::Lt | BinaryOp::Gt | BinaryOp::Le | BinaryOp::Ge => 9,
        BinaryOp::Eq | BinaryOp::Ne => 8,
        BinaryOp::BitAnd => 7,
        BinaryOp::BitXor => 6,
        BinaryOp::BitOr => 5,
    }
}

/// The level of a step before or behind its operand.
pub fn step_level(how: StepKind) -> u32
    ensures { result ≡ level_of_step how }
{
    match how {
        StepKind::PreInc | StepKind::PreDec => 14,
        StepKind::PostInc | StepKind::PostDec => 15,
    }
}

impl Infix {
    /// The level of the whole.
    pub fn level(self) -> u32
        ensures { result ≡ level_of_infix self }
    {
        match self {
            Infix::Binary(op) => binary_level(op),
            Infix::And => 4,
            Infix::Or => 3,
            Infix::Assign(_) => 1,
            Infix::Comma => 0,
        }
    }

    /// The least level of the left operand.
    pub fn left(self) -> u32
        ensures { result ≡ left_of_infix self }
    {
        match self {
            Infix::Assign(_) => 14,
            _ => self.level(),
        }
    }

    /// The least level of the right operand.
    pub fn right(self) -> u32
        ensures { result ≡ right_of_infix self }
    {
        match self {
            Infix::Binary(op) => binary_level(op) + 1,
            Infix::And => 5,
            Infix::Or => 4,
            Infix::Assign(_) | Infix::Comma => 1,
        }
    }
}

impl Prefix {
    /// The least level of the operand.
    pub fn right(self) -> u32
        ensures { result ≡ right_of_prefix self }
    {
        match self {
            Prefix::Unary(_) => 13,
            Prefix::Step(_) | Prefix::Sizeof => 14,
        }
    }
}
