// Which objects are in scope.
ghost use Rattle.std.specs.Prelude.{◌≡◌, IfOk, OnOk, replicate, false, true, option_map, option_copied, slice_get, slice_set};
ghost use Rattle.c65_csem.specs.Places;
ghost use Rattle.c65_csem.specs.Views.{object_of, unit_of};
ghost use Rattle.c65_meaning.specs.Shapes;
ghost use Rattle.c65_csem_names.specs.Tests;

use c65_csem::{Class, Parts, TObject};
use std::alloc::{AllocError, Global};

pub fn object(parts: &Parts, number: u32) -> Option<&TObject>
    ensures { option_map object_of (option_copied result) ≡ slice_get (unit_of parts.now).objects number }
{
    parts.objects.get(number as usize)
}

pub fn is_automatic(class: Class) -> bool
    ensures { result ≡ Places.is_automatic class }
{
    match class {
        Class::Auto | Class::Register | Class::Fixed => true,
        _ => false,
    }
}

/// Whether an object lives no longer than a call.
pub fn lives_in_frame(object: Option<&TObject>) -> bool
    ensures { result ≡ Shapes.lives_in_frame (option_map object_of (option_copied object.entry)) }
{
    match object {
        Some(object) => is_automatic(object.class),
        None => false,
    }
}

fn is_marked(marks: &[bool], number: u32) -> bool
    ensures { result ≡ Tests.is_marked marks.now number }
{
    match marks.get(number as usize) {
        Some(mark) => *mark,
        None => false,
    }
}

/// Whether a name may stand where these objects are in scope.
pub fn is_in_scope(parts: &Parts, marks: &[bool], number: u32) -> bool
    ensures { result ≡ Tests.is_in_scope (unit_of parts.now) marks.now number }
{
    !lives_in_frame(object(parts, number)) || is_marked(marks, number)
}

/// No object is in scope.
pub fn unmarked(alloc: Global, count: usize) -> Result<Vec<bool>, AllocError>
    ensures { IfOk result (λ v. v.items ≡ replicate count false) }
{
    let mut marks = Vec::new(alloc);
    marks.resize(count, false)?;
    Ok(marks)
}

fn is_unmarked(marks: &[bool], number: u32) -> bool
    ensures { result ≡ Tests.is_unmarked marks.now number }
{
    match marks.get(number as usize) {
        Some(mark) => !*mark,
        None => false,
    }
}

/// Brings an object into scope, and notes it where it was not.
#[tactic(auto, using(crate::proofs::CodeLaws::left_fresh, crate::proofs::CodeLaws::set_already))]
fn bring(marks: &mut Vec<bool>, fresh: &mut Vec<u32>, number: u32) -> Result<(), AllocError>
    ensures marks { OnOk result (marks.new.items ≡ slice_set marks.old.items number true) }
    ensures back { OnOk result (Tests.left fresh.new.items marks.new.items ≡ Tests.left fresh.old.items marks.old.items) }
{
    if is_unmarked(marks, number) {
        fresh.push(number)?;
        marks[number as usize] = true;
    }
    Ok(())
}

/// Brings the objects of a block into scope, and tells those that were not.
pub fn enter(alloc: Global, marks: &mut Vec<bool>, objects: &[u32]) -> Result<Vec<u32>, AllocError>
    ensures marks { IfOk result (λ fresh. marks.new.items ≡ Tests.entered objects.now marks.old.items) }
    ensures back { IfOk result (λ fresh. Tests.left fresh.items marks.new.items ≡ marks.old.items) }
{
    let mut fresh = Vec::new(alloc);
    for object in objects {
        bring(marks, &mut fresh, *object)?;
    }
    Ok(fresh)
}

/// Takes objects out of scope.
#[tactic(auto, using(crate::proofs::CodeLaws::left_last))]
pub fn leave(marks: &mut Vec<bool>, mut fresh: Vec<u32>)
    ensures { marks.new.items ≡ Tests.left fresh.items marks.old.items }
{
    while let Some(number) = fresh.pop() {
        unmark(marks, number);
    }
}

#[tactic(auto, using(std::proofs::lemmas::List::set_past))]
fn unmark(marks: &mut Vec<bool>, number: u32)
    ensures { marks.new.items ≡ slice_set marks.old.items number false }
{
    let at = number as usize;
    if at < marks.len() {
        marks[at] = false;
    }
}
