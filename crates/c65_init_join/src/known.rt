// The names that joining knows of itself: that of the main function, and those of the library.
ghost use Rattle.std.specs.Prelude.{◌≡◌};
ghost use Rattle.c65_csem.specs.Library.{library_at};
ghost use Rattle.c65_init_join.specs.Known.{is_main_at, main_named};

use c65_base::{Library, Name, Names};

/// The function of the library that a name is.
pub fn library_named(names: &Names, name: Name) -> Option<Library>
    ensures { result ≡ library_at names.now name.0 }
{
    match names.spelling(name) {
        Some(spelling) => c65_csem::library_named(spelling),
        None => None,
    }
}

fn is_main_name(names: &Names, name: Name) -> bool
    ensures { result ≡ is_main_at names.now name.0 }
{
    match names.spelling(name) {
        Some(spelling) => spelling == b"main".as_slice(),
        None => false,
    }
}

/// The name of the main function.
#[tactic(auto, using(crate::proofs::NameLaws::main_next, crate::proofs::NameLaws::main_here, crate::proofs::NameLaws::main_past))]
pub fn name_of_main(names: &Names) -> Option<Name>
    ensures { result ≡ main_named 0 names.now }
{
    for number in 0..names.len() as u32 {
        let name = Name(number);
        if is_main_name(names, name) {
            return Some(name);
        }
    }
    None
}
