// Whether the objects and literals of a program are plain.
ghost use Rattle.std.specs.Prelude.{◌≡◌};
ghost use Rattle.c65_csem.specs.Views.{object_of, unit_of};
ghost use Rattle.c65_csem_plain.specs.Tests;

use crate::initial::{are_bytes, begins_plain};
use crate::members::has_bytes;
use crate::names::{has_own_name, is_external};
use c65_base::Names;
use c65_csem::{Parts, TObject};

fn is_plain_object(names: &Names, parts: &Parts, object: &TObject) -> bool
    ensures { result ≡ Tests.is_plain_object names.now (unit_of parts.now) (object_of object.now) }
{
    has_bytes(&parts.types, &object.ty.ty)
        && has_own_name(names, is_external(object.class), object.name)
        && begins_plain(&object.init)
}

pub fn are_plain_objects(names: &Names, parts: &Parts) -> bool
    ensures { result ≡ Tests.are_plain_objects names.now (unit_of parts.now) (unit_of parts.now).objects }
{
    for object in &parts.objects {
        if !is_plain_object(names, parts, object) {
            return false;
        }
    }
    true
}

pub fn all_bytes(parts: &Parts) -> bool
    ensures { result ≡ Tests.all_bytes (unit_of parts.now).literals }
{
    for literal in &parts.literals {
        if !are_bytes(literal.as_slice()) {
            return false;
        }
    }
    true
}
