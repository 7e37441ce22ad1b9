// The functions of C's library that the runtime defines.
ghost use Rattle.std.specs.Prelude.{◌≡◌};
ghost use Rattle.c65_base.specs.Library.{library_name};

/// C90 7.7, 7.9, 7.10 and 7.11: the functions that programs may call and the runtime defines.
#[derive(Clone, Copy, Debug, PartialEq, Eq, Hash)]
pub enum Library {
    Putchar,
    Getchar,
    Puts,
    Exit,
    Memcpy,
    Memset,
    Strcmp,
    Strcpy,
    Strlen,
    Printf,
}

impl Library {
    /// The function's name in C.
    pub fn name(self) -> &'static [u8]
        ensures { result.now ≡ library_name self }
    {
        match self {
            Library::Putchar => b"putchar",
            Library::Getchar => b"getchar",
            Library::Puts => b"puts",
            Library::Exit => b"exit",
            Library::Memcpy => b"memcpy",
            Library::Memset => b"memset",
            Library::Strcmp => b"strcmp",
            Library::Strcpy => b"strcpy",
            Library::Strlen => b"strlen",
            Library::Printf => b"printf",
        }
    }
}
