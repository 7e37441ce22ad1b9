// Which objects belong to a function, in the order of their numbers.
ghost use Rattle.std.specs.Prelude.{◌≡◌, IfOk, OnOk};
ghost use Rattle.c65_genframe.specs.Marks.{least, greatest, marked, all_marks, lowest};

use std::alloc::{AllocError, Global};

/// What an object is to a function.
#[derive(Clone, Copy, Debug, PartialEq, Eq)]
pub enum Mark {
    /// It does not belong to the function.
    Other,
    /// An object of one of its blocks.
    Local,
    Parameter,
}

fn least(objects: &[u32], first: u32) -> u32
    ensures { result ≡ least first objects.now }
{
    let mut number = first;
    for object in objects {
        number = number.min(*object);
    }
    number
}

fn greatest(objects: &[u32], first: u32) -> u32
    ensures { result ≡ greatest first objects.now }
{
    let mut number = first;
    for object in objects {
        number = number.max(*object);
    }
    number
}

/// Gives one mark to each of these objects; the first mark is that of the object with number `low`.
fn give_marks(marks: &mut Vec<Mark>, low: u32, with: Mark, objects: &[u32])
    ensures { marks.new.items ≡ marked low with marks.old.items objects.now }
{
    for object in objects {
        let at = object.saturating_sub(low) as usize;
        if at < marks.len() {
            marks[at] = with;
        }
    }
}

/// The lowest number of an object of the function.
pub fn lowest(locals: &[u32], params: &[u32]) -> u32
    ensures { result ≡ lowest locals.now params.now }
{
    least(params, least(locals, 0xffff_ffff))
}

/// The marks of all objects from the lowest number to the highest.
pub fn all_marks(alloc: Global, locals: &[u32], params: &[u32]) -> Result<Vec<Mark>, AllocError>
    ensures { IfOk result (λ v. v.items ≡ all_marks locals.now params.now) }
{
    let low = lowest(locals, params);
    let high = greatest(params, greatest(locals, 0));
    let count = (high as u64 + 1).saturating_sub(low as u64);
    let mut marks = Vec::new(alloc);
    marks.resize(count as usize, Mark::Other)?;
    give_marks(&mut marks, low, Mark::Local, locals);
    give_marks(&mut marks, low, Mark::Parameter, params);
    Ok(marks)
}
