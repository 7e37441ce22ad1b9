// What a call takes of the software stack beside the bytes that its caller pushed (MACHINE.md, "The check of the stacks").
ghost use Rattle.std.specs.Prelude.{◌≡◌, ◌+◌, ◌*◌, min};
ghost use Rattle.c65_csem.specs.Views.{func_of};
ghost use Rattle.c65_genframe.specs.Objects.{locals_of};
ghost use Rattle.c65_genframe.specs.Frames.{framed_bytes, all_bytes, waiting_in, asked_bytes, last_bytes, has_prototype, register_param};

use crate::sizes::{is_fixed, object_bytes};
use c65_csem::{Parts, TFunc};
use c65_csem_need::greatest_need;

fn framed_bytes(parts: &Parts, object: u32) -> u32
    ensures { result ≡ framed_bytes parts.now object }
{
    if is_fixed(parts, object as usize) {
        0
    } else {
        object_bytes(parts, object as usize)
    }
}

fn all_bytes(parts: &Parts, objects: &[u32]) -> u32
    ensures { result ≡ min (all_bytes parts.now objects.now) 4294967295 }
{
    let mut bytes: u32 = 0;
    for object in objects {
        bytes = bytes.saturating_add(framed_bytes(parts, *object));
    }
    bytes
}

fn waiting_in(function: &TFunc) -> u32
    ensures { result ≡ min (waiting_in (func_of function.now).body) 4294967295 }
{
    match &function.body {
        Some(body) => greatest_need(body),
        None => 0,
    }
}

/// How many bytes of the software stack the entry of a function asks for where it checks the stacks: those of `locals`, the
/// objects of its blocks, six, eight for each value that waits at once, and `last`, those of the parameter that arrives in registers.
/// At most 65,535; it takes no memory.
pub fn asked_bytes(parts: &Parts, function: &TFunc, locals: &[u32], last: u32) -> u16
    requires locals { locals.now ≡ locals_of (func_of function.now) }
    requires last { last ≡ last_bytes parts.now (has_prototype (func_of function.now).ty) (register_param (func_of function.now)) }
    ensures { result ≡ asked_bytes parts.now (func_of function.now) }
{
    let waiting = waiting_in(function).saturating_mul(8);
    let bytes = all_bytes(parts, locals)
        .saturating_add(6)
        .saturating_add(waiting)
        .saturating_add(last);
    bytes.min(65_535) as u16
}
