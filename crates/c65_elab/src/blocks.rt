// The block of a prototype's parameters (C90 6.1.2.1).
ghost use Rattle.std.specs.Prelude.{◌≡◌, ◌++◌, IfOk, OnOk, length, reverse};
ghost use Rattle.c65_elab_scope.specs.Scopes.{scope_of};
ghost use Rattle.c65_elab_scope.specs.Parts.{fewer_objects};
ghost use Rattle.c65_elab_scope.specs.Tables.{found};
ghost use Rattle.c65_elab.specs.Headings.{names_ended, enumerator_of, enumerators_of, enumerators_left};
ghost use Rattle.c65_elab.specs.Typing.{left};

use c65_base::Name;
use c65_elab_declare::Enumerator;
use c65_elab_scope::{Hidden, Meaning, Scope};
use std::alloc::{AllocError, Global};

/// How many objects were declared.
#[tactic(auto, using(crate::proofs::Parts::objects_many))]
pub fn object_count(scope: &Scope) -> usize
    ensures { result ≡ length (scope_of scope.now).unit.objects }
{
    scope.parts().objects.len()
}

/// Ends the innermost block, unless it stays open, and forgets the objects beyond so many.
pub fn leave(scope: &mut Scope, stays: bool, objects: usize)
    ensures { scope_of scope.new ≡ left stays (scope_of scope.old) objects }
{
    if !stays {
        scope.close();
        scope.keep_objects(objects);
    }
}

/// Adds the enumeration constant that a name means, if it means one.
fn add_enumerator(scope: &Scope, name: Name, list: &mut Vec<Enumerator>) -> Result<(), AllocError>
    ensures { OnOk result (list.new.items ≡ list.old.items ++ enumerator_of name (found (scope_of scope.now).names name)) }
{
    let Some(bound) = scope.find(name) else {
        return Ok(());
    };
    if let Meaning::Enumerator(value) = bound.meaning {
        list.push(Enumerator { name, value })?;
    }
    Ok(())
}

/// The enumeration constants of the innermost block, whose declarations are the latest of these. The
/// latest one comes first.
#[tactic(auto, using(crate::proofs::Parts::latest_first))]
fn own_enumerators(
    alloc: Global,
    scope: &Scope,
    hidden: &[Hidden],
) -> Result<Vec<Enumerator>, AllocError>
    ensures { IfOk result (λ v. v.items ≡ enumerators_of (scope_of scope.now).names (scope_of scope.now).block (reverse hidden.now)) }
{
    let mut list = Vec::new(alloc);
    let mut left = hidden.len();
    while left > 0 {
        left -= 1;
        let latest = hidden[left];
        if latest.block != scope.block {
            return Ok(list);
        }
        add_enumerator(scope, latest.name, &mut list)?;
    }
    Ok(list)
}

/// The enumeration constants of a definition's parameters, where their block is open.
fn enumerators(alloc: Global, scope: &Scope, block: u32) -> Result<Vec<Enumerator>, AllocError>
    ensures { IfOk result (λ v. v.items ≡ enumerators_left (scope_of scope.now) block) }
{
    if scope.block > block {
        own_enumerators(alloc, scope, scope.names.hidden.as_slice())
    } else {
        Ok(Vec::new(alloc))
    }
}

/// Ends the block of a definition's parameters for ordinary identifiers: their tags stay for the
/// function's body, which is the next block.
fn end_names(scope: &mut Scope, block: u32)
    ensures { scope_of scope.new ≡ names_ended (scope_of scope.old) block }
{
    if scope.block > block {
        scope.names.close(scope.block);
        scope.block = block;
    }
}

/// Ends the block of a definition's parameters, but for their tags; forgets the objects beyond so
/// many; and answers the enumeration constants of the block.
pub fn leave_parameters(
    alloc: Global,
    scope: &mut Scope,
    block: u32,
    objects: usize,
) -> Result<Vec<Enumerator>, AllocError>
    ensures constants { IfOk result (λ v. v.items ≡ enumerators_left (scope_of scope.old) block) }
    ensures left { OnOk result (scope_of scope.new ≡ fewer_objects (names_ended (scope_of scope.old) block) objects) }
{
    let list = enumerators(alloc, scope, block)?;
    end_names(scope, block);
    scope.keep_objects(objects);
    Ok(list)
}
