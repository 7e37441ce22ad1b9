// Refusals of the stages behind the preprocessor.
ghost use Rattle.std.specs.Prelude.{◌≡◌, ◌⊎◌};
ghost use Rattle.c65_base.specs.declared.refusal.Refusal.TheVariants as refusals;
ghost use Rattle.c65_ppfile.specs.Finding.{path_at};
ghost use Rattle.c65_driver_chain.specs.Front.{Located, Passed};
ghost use Rattle.c65_driver_chain.specs.Refused;
ghost use Rattle.c65_driver_chain.specs.Refused.{StopsLater};

use c65_base::{Refusal, Size, Text};
use c65_lex::Paths;
use std::alloc::Global;

/// The path of a number in a unit's list.
fn path_of(alloc: Global, paths: Paths, number: u64) -> Text
    ensures { result ≡ path_at paths number }
{
    let mut paths = paths.into_vec();
    if number < paths.len() as u64 {
        paths.swap_remove(number as usize)
    } else {
        Text::from_vec(Vec::new(alloc))
    }
}

/// Whether a limit is one of the command line itself.
fn is_of_command(limit: Size) -> bool
    ensures { result ≡ Refused.is_of_command limit }
{
    match limit {
        Size::Units | Size::Arguments => true,
        _ => false,
    }
}

/// A limit that is exceeded. Those of the command line are none of a stage.
fn large(limit: Size, value: u64) -> Refusal
    ensures stops { StopsLater result }
    ensures exact { (result ≡ refusals.TooLarge limit value) ⊎ (result ≡ refusals.OutOfMemory) }
{
    if is_of_command(limit) || value <= limit.number() {
        return Refusal::OutOfMemory;
    }
    Refusal::TooLarge { limit, value }
}

/// A refusal of a unit's stage, with its file's path in the place of its number.
pub fn located(alloc: Global, refusal: Refusal, paths: Paths) -> Refusal
    ensures stops { StopsLater result }
    ensures exact { Located paths refusal result }
{
    match refusal {
        Refusal::At { code, pos } => Refusal::Source {
            code,
            file: path_of(alloc, paths, pos.file),
            line: pos.line,
        },
        Refusal::TooLarge { limit, value } => large(limit, value),
        _ => Refusal::OutOfMemory,
    }
}

/// A refusal of a stage that sees all units.
pub fn of_all(refusal: Refusal) -> Refusal
    ensures stops { StopsLater result }
    ensures exact { Passed refusal result }
{
    match refusal {
        Refusal::Link { kind, name } => Refusal::Link { kind, name },
        Refusal::TooLarge { limit, value } => large(limit, value),
        _ => Refusal::OutOfMemory,
    }
}
