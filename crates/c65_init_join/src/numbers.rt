// The number that each item of a unit has in the program.
ghost use Rattle.std.specs.Prelude.{◌≡◌, IfOk, slice_get};
ghost use Rattle.c65_init_join.specs.Numbers.{numbers_of};
ghost use Rattle.c65_init_join.specs.Renumbered.{given_or_none, object_number, func_number, literal_number};

use std::alloc::AllocError;

/// For the items of one unit: the numbers of its objects and functions in the program, none for an
/// item that the program leaves out; the number of its first literal; and by how much its tags are
/// raised.
#[derive(Drop)]
pub struct Numbers {
    pub objects: Vec<Option<u32>>,
    pub funcs: Vec<Option<u32>>,
    pub literals: u32,
    pub tags: u32,
}

/// A number of an item, from its place in a list.
pub fn numbered(place: usize) -> Result<u32, AllocError>
    ensures { IfOk result (λ n. n ≡ place) }
{
    if place > 0xffff_ffff {
        Err(AllocError)
    } else {
        Ok(place as u32)
    }
}

fn found(numbers: &[Option<u32>], number: u32) -> Result<u32, AllocError>
    ensures { IfOk result (λ n. n ≡ given_or_none (slice_get numbers.now number)) }
{
    match numbers.get(number as usize) {
        Some(Some(found)) => Ok(*found),
        _ => Err(AllocError),
    }
}

impl Numbers {
    pub fn object(&self, number: u32) -> Result<u32, AllocError>
        ensures { IfOk result (λ n. n ≡ object_number (numbers_of self.now) number) }
    {
        found(&self.objects, number)
    }

    pub fn func(&self, number: u32) -> Result<u32, AllocError>
        ensures { IfOk result (λ n. n ≡ func_number (numbers_of self.now) number) }
    {
        found(&self.funcs, number)
    }

    pub fn literal(&self, number: u32) -> Result<u32, AllocError>
        ensures { IfOk result (λ n. n ≡ literal_number (numbers_of self.now) number) }
    {
        match self.literals.checked_add(number) {
            Some(sum) => Ok(sum),
            None => Err(AllocError),
        }
    }
}
