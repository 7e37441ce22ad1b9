// Commands.
use c65_base::{Options, Text};
use c65_lex::Define;
use std::marker::Model;

/// What a command does.
#[derive(Clone, Copy, Debug, PartialEq, Eq)]
pub enum CommandKind {
    /// Compiles, links and runs files.
    Go,
    /// Writes the image of files.
    Build,
    /// Runs an image.
    Run,
    /// Writes the assembly text of files.
    Text,
    /// Makes a program of so many functions, compiles, links and runs it.
    Gen,
    /// Writes how much of the stacks the functions of files take.
    Depth,
}

/// A command with its options. Definitions, folders, files and arguments stand in the order of the words.
#[derive(Debug, Drop)]
pub struct Command {
    pub kind: CommandKind,
    pub options: Options,
    /// `-D`
    pub defines: Vec<Define>,
    /// `-I`
    pub folders: Vec<Text>,
    /// The files, or the image alone.
    pub files: Vec<Text>,
    /// The words behind `--`.
    pub args: Vec<Text>,
    /// `-o`
    pub out: Option<Text>,
    /// `-x`
    pub cycles: Option<u32>,
    /// `--known`
    pub known: bool,
    /// The number of `gen`, 1 to 255; 0 for the others.
    pub number: u8,
}

impl Model for Command {
    ghost use Rattle.c65_driver_words.specs.Commands.{Spelled};

    ghost Value = { Spelled };

    ghost view = { λ c. record { kind = c.kind; options = c.options; defines = c.defines.items; folders = c.folders.items; files = c.files.items; args = c.args.items; out = c.out; cycles = c.cycles; known = c.known; number = c.number } };
}
