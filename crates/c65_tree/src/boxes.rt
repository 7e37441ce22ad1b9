// A tree in a box, and one more behind others. Where memory runs out, all are dropped here, at an unknown type: the
// check lays out a drop at a known type of many variants variant by variant, at each exit.
ghost use Rattle.std.specs.Prelude.{◌≡◌, IfOk, OnOk, ◌++◌, ◌∷◌, []};

use std::alloc::{AllocError, Global};

/// A value in a box.
pub fn boxed<T: Drop>(alloc: Global, value: T) -> Result<Box<T>, AllocError>
    ensures { IfOk result (λ r. r.value ≡ value) }
{
    Ok(Box::new(alloc, value)?)
}

/// One more value behind those of a list.
pub fn with_last<T: Drop>(list: Vec<T>, value: T) -> Result<Vec<T>, AllocError>
    ensures { IfOk result (λ r. r.items ≡ list.items ++ value ∷ []) }
{
    let mut list = list;
    list.push(value)?;
    Ok(list)
}

/// One more value at the end of a list.
pub fn push_last<T: Drop>(list: &mut Vec<T>, value: T) -> Result<(), AllocError>
    ensures { OnOk result (list.new.items ≡ list.old.items ++ value ∷ []) }
{
    Ok(list.push(value)?)
}
