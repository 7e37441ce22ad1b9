// The one refusal type of the workspace.
ghost use Rattle.std.specs.Prelude.{◌≡◌};
ghost use Rattle.c65_base.specs.declared.refusal.Refusal.TheVariants.{OutOfMemory, At};
ghost use Rattle.c65_base.specs.Status.{status_of};
ghost use Rattle.c65_base.specs.Lines.{kind_name, size_name};
ghost use Rattle.c65_base.specs.Limits.{limit_of};

use crate::code::Code;
use crate::text::Text;
use std::alloc::{AllocError, AllocFailed};
use thiserror::Error;

/// A place: a file by its number in the unit's list, and a line from 1. A line above 4,294,967,295 is given as that.
#[derive(Clone, Copy, Debug, PartialEq, Eq, Hash)]
pub struct Pos {
    pub file: u64,
    pub line: u32,
}

/// The kinds of fault that joining and linking may find.
#[derive(Clone, Copy, Debug, PartialEq, Eq, Hash)]
pub enum LinkKind {
    /// A name that is used and defined nowhere.
    Undefined,
    /// A name that is defined twice.
    Twice,
    /// A name whose declarations do not agree.
    TypesDiffer,
    /// No `main`, or one of a wrong type.
    Main,
}

/// What a limit counts. `number` has the limits.
#[derive(Clone, Copy, Debug, PartialEq, Eq, Hash)]
pub enum Size {
    /// Bytes of one source file.
    File,
    /// Bytes of one logical line after splicing.
    Line,
    /// Distinct spellings in one call of the tool.
    Names,
    /// Open files, the first one included.
    Includes,
    /// Open `#if` groups of one file.
    Conditionals,
    /// Macros defined at one time.
    Macros,
    /// Parameters of a macro, or arguments of one use.
    MacroArguments,
    /// Tokens of one unit, and tokens waiting in one expansion, line ends not counted.
    Tokens,
    /// Bytes of one joined string without its last zero.
    Literal,
    /// Depth of an expression, statement, declarator or initialiser tree, parentheses counted.
    Depth,
    /// Members of one structure or union.
    Members,
    /// Case labels of one switch.
    Cases,
    /// Bytes of the parameters of one function or the arguments of one call.
    ArgumentBytes,
    /// Bytes of one type.
    Object,
    /// Bytes of parameters and locals of one function.
    Frame,
    /// FILE words.
    Units,
    /// Bytes of code, data and zero data together.
    Image,
    /// Bytes of the program's arguments with their zero bytes and their list.
    Arguments,
}

/// Why a call was refused. Its exact line is had from `line`, and the status from `status`.
#[derive(Debug, Drop, PartialEq, Eq, Error)]
pub enum Refusal {
    /// A growth found no memory.
    #[error("out of memory")]
    OutOfMemory,
    /// The command's words up to this one, counted from 0, begin no command.
    #[error("usage at word {word}")]
    Usage { word: u64 },
    /// A file that is not there.
    #[error("missing file {path}")]
    Missing { path: Text },
    #[error("read fault")]
    ReadFault,
    #[error("write fault")]
    WriteFault,
    /// A fault of a source text, in a file by its name.
    #[error("{file}:{line}: error {code:?}")]
    Source { code: Code, file: Text, line: u32 },
    /// A fault of a source text, in a file by its number in the unit.
    #[error("error {code:?} at {pos:?}")]
    At { code: Code, pos: Pos },
    /// A counted quantity that exceeds its limit, and its value.
    #[error("too large: {limit:?} {value}")]
    TooLarge { limit: Size, value: u64 },
    /// The first offset at which the bytes are no image.
    #[error("bad image at {offset}")]
    BadImage { offset: u32 },
    #[error("link: {kind:?} {name}")]
    Link { kind: LinkKind, name: Text },
    /// The row at this address would push past the end of the hardware stack.
    #[error("hard stack at {pc:04X}")]
    HardStack { pc: u16 },
    /// The budget of a run is used up.
    #[error("limit {count}")]
    Limit { count: u64 },
    /// No documented instruction stands at this address.
    #[error("illegal opcode at {pc:04X}")]
    Illegal { pc: u16 },
}

impl From<AllocError> for Refusal {
    ghost from_gives = { λ _ r. r ≡ OutOfMemory };

    fn from(_: AllocError) -> Refusal {
        Refusal::OutOfMemory
    }
}

impl<T: Drop> From<AllocFailed<T>> for Refusal {
    ghost from_gives = { λ _ r. r ≡ OutOfMemory };

    fn from(_: AllocFailed<T>) -> Refusal {
        Refusal::OutOfMemory
    }
}

impl Refusal {
    /// A fault of a source text at a place.
    pub fn fault(code: Code, pos: Pos) -> Refusal
        ensures { result ≡ At code pos }
    {
        Refusal::At { code, pos }
    }

    /// The status with which the program ends.
    pub fn status(&self) -> u8
        ensures { result ≡ status_of self.now }
    {
        match self {
            Refusal::OutOfMemory => 101,
            Refusal::Usage { .. } => 102,
            Refusal::Missing { .. } => 103,
            Refusal::ReadFault => 104,
            Refusal::WriteFault => 105,
            Refusal::Source { .. } | Refusal::At { .. } => 106,
            Refusal::TooLarge { .. } => 107,
            Refusal::BadImage { .. } => 108,
            Refusal::Link { .. } => 109,
            Refusal::HardStack { .. } => 110,
            Refusal::Limit { .. } => 111,
            Refusal::Illegal { .. } => 112,
        }
    }
}

impl LinkKind {
    /// The kind's name, as a message shows it.
    pub fn name(self) -> &'static [u8]
        ensures { result.now ≡ kind_name self }
    {
        match self {
            LinkKind::Undefined => b"Undefined",
            LinkKind::Twice => b"Twice",
            LinkKind::TypesDiffer => b"TypesDiffer",
            LinkKind::Main => b"Main",
        }
    }
}

impl Size {
    /// The greatest quantity that is not refused.
    pub fn number(self) -> u64
        ensures { result ≡ limit_of self }
    {
        match self {
            Size::File => 1_048_576,
            Size::Line => 32_767,
            Size::Names => 65_535,
            Size::Includes => 64,
            Size::Conditionals => 64,
            Size::Macros => 16_384,
            Size::MacroArguments => 127,
            Size::Tokens => 500_000,
            Size::Literal => 4_095,
            Size::Depth => 256,
            Size::Members => 1_024,
            Size::Cases => 1_024,
            Size::ArgumentBytes => 250,
            Size::Object => 65_535,
            Size::Frame => 1_024,
            Size::Units => 64,
            Size::Image => 62_960,
            Size::Arguments => 1_024,
        }
    }

    /// The limit's name, as a message shows it.
    pub fn name(self) -> &'static [u8]
        ensures { result.now ≡ size_name self }
    {
        match self {
            Size::File => b"File",
            Size::Line => b"Line",
            Size::Names => b"Names",
            Size::Includes => b"Includes",
            Size::Conditionals => b"Conditionals",
            Size::Macros => b"Macros",
            Size::MacroArguments => b"MacroArguments",
            Size::Tokens => b"Tokens",
            Size::Literal => b"Literal",
            Size::Depth => b"Depth",
            Size::Members => b"Members",
            Size::Cases => b"Cases",
            Size::ArgumentBytes => b"ArgumentBytes",
            Size::Object => b"Object",
            Size::Frame => b"Frame",
            Size::Units => b"Units",
            Size::Image => b"Image",
            Size::Arguments => b"Arguments",
        }
    }
}
