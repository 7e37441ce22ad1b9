// Values in boxes beside others that wait. Where memory runs out, all are dropped here, at unknown types: the check
// lays out a drop at a known type of many variants variant by variant, at each exit.
ghost use Rattle.std.specs.Prelude.{◌≡◌, IfOk};

use std::alloc::{AllocError, Global};

/// A value in a box, beside one that waits.
pub fn boxed_beside<T: Drop, W: Drop>(
    alloc: Global,
    value: T,
    waiting: W,
) -> Result<(Box<T>, W), AllocError>
    ensures boxed { IfOk result (λ r. r.0.value ≡ value) }
    ensures waiting { IfOk result (λ r. r.1 ≡ waiting) }
{
    Ok((Box::new(alloc, value)?, waiting))
}

/// Two values, each in a box.
pub fn boxed_pair<A: Drop, B: Drop>(
    alloc: Global,
    first: A,
    second: B,
) -> Result<(Box<A>, Box<B>), AllocError>
    ensures first { IfOk result (λ r. r.0.value ≡ first) }
    ensures second { IfOk result (λ r. r.1.value ≡ second) }
{
    let first = Box::new(alloc, first)?;
    Ok((first, Box::new(alloc, second)?))
}
