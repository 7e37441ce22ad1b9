// Laws, each the contract of a function that does nothing.
ghost use Rattle.c65_asm_law_names.specs.Example.{LocalsNeedNoBody};
ghost use Rattle.c65_asm_law_names.specs.Laws.{RenumberedIsSound, MainIsNumbered, RenumberedComes, NothingIsUndefined};

/// A code that can be written can be linked once its symbols are numbered anew: it can be written, its functions are segments, and
/// each symbol is named by something.
pub fn renumbered_is_sound()
    ensures { RenumberedIsSound }
{}

/// The function `main` that has lines is the one that the renumbered code has.
pub fn main_is_numbered()
    ensures { MainIsNumbered }
{}

/// Where each symbol that the lines or the data of a code name has lines, data, or a function of the library for its name, and one
/// that is named is `main`, the linker misses no symbol of the renumbered code.
pub fn nothing_is_undefined()
    ensures { NothingIsUndefined }
{}

/// What the lines of a code come to at every placement within a weight, those of the renumbered code come to at the linker's.
pub fn renumbered_comes()
    ensures { RenumberedComes }
{}

/// The symbol of an object in a frame has neither lines nor data, and a code with one is closed.
pub fn locals_need_no_body()
    ensures { LocalsNeedNoBody }
{}
