// What the words so far have told.
ghost use Rattle.std.specs.Prelude.{◌≡◌, is_some};
ghost use Rattle.c65_driver_words.specs.Words;
ghost use Rattle.c65_driver_words.specs.Told.{GoesOn, Tells};

use crate::command::{Command, CommandKind};
use crate::value::{
    Flag, Value, are_letters, behind, cycles, define, flag_of, is_file, number, processor, value_of,
};
use c65_base::{Cpu, Options, Text};
use c65_lex::Define;
use std::alloc::{AllocError, Global};
use std::marker::Model;

/// What the words so far have told, and the option whose value is the next word.
#[derive(Drop)]
pub struct Told {
    kind: CommandKind,
    options: Options,
    defines: Vec<Define>,
    folders: Vec<Text>,
    files: Vec<Text>,
    out: Option<Text>,
    cycles: Option<u32>,
    known: bool,
    number: Option<u8>,
    has_target: bool,
    has_processor: bool,
    waits: Option<Value>,
    alloc: Global,
}

impl Model for Told {
    ghost use Rattle.c65_driver_words.specs.Words as words;

    ghost Value = { words.Told };

    ghost view = { λ t. record { kind = t.kind; options = t.options; defines = t.defines.items; folders = t.folders.items; files = t.files.items; out = t.out; cycles = t.cycles; known = t.known; number = t.number; has_target = t.has_target; has_processor = t.has_processor; waits = t.waits } };
}

impl CommandKind {
    /// Whether the compiler's options may stand.
    fn compiles(self) -> bool
        ensures { result ≡ Words.compiles self }
    {
        match self {
            CommandKind::Run => false,
            CommandKind::Go
            | CommandKind::Build
            | CommandKind::Text
            | CommandKind::Gen
            | CommandKind::Depth => true,
        }
    }

    /// Whether `-D` and `-I` may stand.
    fn reads_sources(self) -> bool
        ensures { result ≡ Words.reads_sources self }
    {
        match self {
            CommandKind::Run | CommandKind::Gen => false,
            CommandKind::Go | CommandKind::Build | CommandKind::Text | CommandKind::Depth => true,
        }
    }

    /// Whether `-o` may stand.
    fn writes(self) -> bool
        ensures { result ≡ Words.writes self }
    {
        match self {
            CommandKind::Build | CommandKind::Text => true,
            CommandKind::Go | CommandKind::Run | CommandKind::Gen | CommandKind::Depth => false,
        }
    }

    /// Whether `-x` may stand.
    fn counts_cycles(self) -> bool
        ensures { result ≡ Words.counts_cycles self }
    {
        match self {
            CommandKind::Go | CommandKind::Run => true,
            CommandKind::Build | CommandKind::Text | CommandKind::Gen | CommandKind::Depth => false,
        }
    }

    /// Whether arguments may stand.
    fn passes_args(self) -> bool
        ensures { result ≡ Words.passes_args self }
    {
        match self {
            CommandKind::Go | CommandKind::Run | CommandKind::Depth => true,
            CommandKind::Build | CommandKind::Text | CommandKind::Gen => false,
        }
    }

    /// Whether `--known` may stand.
    fn prints(self) -> bool
        ensures { result ≡ Words.prints self }
    {
        match self {
            CommandKind::Text => true,
            CommandKind::Go
            | CommandKind::Build
            | CommandKind::Run
            | CommandKind::Gen
            | CommandKind::Depth => false,
        }
    }

    fn takes_flag(self, flag: Flag) -> bool
        ensures { result ≡ Words.takes_flag self flag }
    {
        match flag {
            Flag::Known => self.prints(),
            Flag::RegisterVars | Flag::SignedChars | Flag::StaticLocals | Flag::CheckStack => {
                self.compiles()
            }
        }
    }
}

impl Told {
    /// The name of a command alone.
    pub fn new(alloc: Global, kind: CommandKind) -> Told
        ensures { result ≡ Words.nothing_told kind }
    {
        Told {
            kind,
            options: Options::none(),
            defines: Vec::new(alloc),
            folders: Vec::new(alloc),
            files: Vec::new(alloc),
            out: None,
            cycles: None,
            known: false,
            number: None,
            has_target: false,
            has_processor: false,
            waits: None,
            alloc,
        }
    }

    /// Whether an option waits for its value.
    pub fn waits(&self) -> bool
        ensures { result ≡ is_some self.now.waits }
    {
        self.waits.is_some()
    }

    /// Whether the number of `gen`, or a file, stands.
    fn has_operand(&self) -> bool
        ensures { result ≡ Words.has_operand self.now.kind self.now }
    {
        match self.kind {
            CommandKind::Gen => self.number.is_some(),
            CommandKind::Go
            | CommandKind::Build
            | CommandKind::Run
            | CommandKind::Text
            | CommandKind::Depth => !self.files.is_empty(),
        }
    }

    /// Whether the words may end here.
    pub fn is_whole(&self) -> bool
        ensures { result ≡ Words.is_whole self.now }
    {
        self.waits.is_none() && self.has_operand()
    }

    /// Whether arguments may follow.
    pub fn takes_args(&self) -> bool
        ensures { result ≡ Words.takes_args self.now }
    {
        self.is_whole() && self.kind.passes_args()
    }

    fn may_stand(&self, value: Value) -> bool
        ensures { result ≡ Words.may_stand self.now value }
    {
        match value {
            Value::Define | Value::Folder => self.kind.reads_sources(),
            Value::Target => self.kind.compiles() && !self.has_target,
            Value::Processor => self.kind.compiles() && !self.has_processor,
            Value::Out => self.kind.writes() && self.out.is_none(),
            Value::Cycles => self.kind.counts_cycles() && self.cycles.is_none(),
        }
    }

    fn take_define(&mut self, define: Option<Define>) -> Result<bool, AllocError>
        ensures { GoesOn result self.new (Words.with_define self.old define) }
    {
        let Some(define) = define else {
            return Ok(false);
        };
        self.defines.push(define)?;
        self.waits = None;
        Ok(true)
    }

    fn take_folder(&mut self, text: &[u8]) -> Result<bool, AllocError>
        ensures { GoesOn result self.new (Words.with_value Value.Folder self.old text.now) }
    {
        if !is_file(text) {
            return Ok(false);
        }
        let folder = Text::copy_of(self.alloc, text)?;
        self.folders.push(folder)?;
        self.waits = None;
        Ok(true)
    }

    fn take_out(&mut self, text: &[u8]) -> Result<bool, AllocError>
        ensures { GoesOn result self.new (Words.with_value Value.Out self.old text.now) }
    {
        if !is_file(text) {
            return Ok(false);
        }
        let path = Text::copy_of(self.alloc, text)?;
        self.out = Some(path);
        self.waits = None;
        Ok(true)
    }

    fn take_cycles(&mut self, number: Option<u32>) -> bool
        ensures { Tells result self.new (Words.with_cycles self.old number) }
    {
        let Some(number) = number else {
            return false;
        };
        self.cycles = Some(number);
        self.waits = None;
        true
    }

    fn take_target(&mut self, text: &str) -> bool
        ensures { Tells result self.new (Words.with_value Value.Target self.old text.now) }
    {
        if text != "sim6502" {
            return false;
        }
        self.has_target = true;
        self.waits = None;
        true
    }

    fn take_processor(&mut self, cpu: Option<Cpu>) -> bool
        ensures { Tells result self.new (Words.with_processor self.old cpu) }
    {
        let Some(cpu) = cpu else {
            return false;
        };
        self.options.cpu = cpu;
        self.has_processor = true;
        self.waits = None;
        true
    }

    /// The value of an option, in a word of its own.
    fn take_value(&mut self, value: Value, word: &str) -> Result<bool, AllocError>
        ensures { GoesOn result self.new (Words.with_value value self.old word.now) }
    {
        match value {
            Value::Define => {
                let define = define(self.alloc, word.as_bytes())?;
                self.take_define(define)
            }
            Value::Folder => self.take_folder(word.as_bytes()),
            Value::Target => Ok(self.take_target(word)),
            Value::Processor => Ok(self.take_processor(processor(word.as_bytes()))),
            Value::Out => self.take_out(word.as_bytes()),
            Value::Cycles => Ok(self.take_cycles(cycles(word))),
        }
    }

    fn take_flag(&mut self, flag: Flag) -> bool
        ensures { Tells result self.new (Words.with_flag flag self.old) }
    {
        if !self.kind.takes_flag(flag) {
            return false;
        }
        match flag {
            Flag::RegisterVars => self.options.register_vars = true,
            Flag::SignedChars => self.options.signed_chars = true,
            Flag::StaticLocals => self.options.static_locals = true,
            Flag::CheckStack => self.options.check_stack = true,
            Flag::Known => self.known = true,
        }
        true
    }

    /// What follows `-O`, in its word.
    fn take_letters(&mut self, letters: &[u8]) -> bool
        ensures { Tells result self.new (Words.with_letters self.old letters.now) }
    {
        if !self.kind.compiles() || !are_letters(letters) {
            return false;
        }
        self.options.optimise = true;
        self.options.inline_more |= letters.contains(&b'i');
        self.options.register_vars |= letters.contains(&b'r');
        self.options.known_functions |= letters.contains(&b's');
        true
    }

    fn take_option(&mut self, value: Value) -> bool
        ensures { Tells result self.new (Words.with_option value self.old) }
    {
        if !self.may_stand(value) {
            return false;
        }
        self.waits = Some(value);
        true
    }

    fn has_place(&self) -> bool
        ensures { result ≡ Words.has_place self.now.kind self.now.files }
    {
        match self.kind {
            CommandKind::Run => self.files.is_empty(),
            CommandKind::Go
            | CommandKind::Build
            | CommandKind::Text
            | CommandKind::Gen
            | CommandKind::Depth => true,
        }
    }

    fn take_file(&mut self, word: &[u8]) -> Result<bool, AllocError>
        ensures { GoesOn result self.new (Words.with_file self.old word.now) }
    {
        if !is_file(word) || !self.has_place() {
            return Ok(false);
        }
        let file = Text::copy_of(self.alloc, word)?;
        self.files.push(file)?;
        Ok(true)
    }

    fn take_number(&mut self, number: Option<u8>) -> bool
        ensures { Tells result self.new (Words.with_number self.old number) }
    {
        let Some(number) = number else {
            return false;
        };
        if self.number.is_some() {
            return false;
        }
        self.number = Some(number);
        true
    }

    /// A word that is no option.
    fn take_operand(&mut self, word: &str) -> Result<bool, AllocError>
        ensures { GoesOn result self.new (Words.with_operand self.old.kind self.old word.now) }
    {
        match self.kind {
            CommandKind::Gen => Ok(self.take_number(number(word))),
            CommandKind::Go
            | CommandKind::Build
            | CommandKind::Run
            | CommandKind::Text
            | CommandKind::Depth => self.take_file(word.as_bytes()),
        }
    }

    /// A definition in the word of its option.
    fn take_joined_define(&mut self, text: &[u8]) -> Result<bool, AllocError>
        ensures { GoesOn result self.new (Words.with_joined Value.Define self.old text.now) }
    {
        if !self.may_stand(Value::Define) {
            return Ok(false);
        }
        let define = define(self.alloc, text)?;
        self.take_define(define)
    }

    /// A folder in the word of its option.
    fn take_joined_folder(&mut self, text: &[u8]) -> Result<bool, AllocError>
        ensures { GoesOn result self.new (Words.with_joined Value.Folder self.old text.now) }
    {
        if !self.may_stand(Value::Folder) {
            return Ok(false);
        }
        self.take_folder(text)
    }

    /// A processor in the word of its option.
    fn take_joined_processor(&mut self, text: &[u8]) -> bool
        ensures { Tells result self.new (Words.with_joined Value.Processor self.old text.now) }
    {
        self.may_stand(Value::Processor) && self.take_processor(processor(text))
    }

    /// A word that is an option with its value, or no option.
    fn take_joined(&mut self, word: &str) -> Result<bool, AllocError>
        ensures { GoesOn result self.new (Words.told_joined self.old word.now) }
    {
        let bytes = word.as_bytes();
        if let Some(text) = behind(b"-D", bytes) {
            return self.take_joined_define(text);
        }
        if let Some(text) = behind(b"-I", bytes) {
            return self.take_joined_folder(text);
        }
        if let Some(text) = behind(b"--cpu=", bytes) {
            return Ok(self.take_joined_processor(text));
        }
        if let Some(letters) = behind(b"-O", bytes) {
            return Ok(self.take_letters(letters));
        }
        self.take_operand(word)
    }

    /// Takes one word more; whether the words go on so.
    pub fn take(&mut self, word: &str) -> Result<bool, AllocError>
        ensures { GoesOn result self.new (Words.told_more self.old word.now) }
    {
        if let Some(value) = self.waits {
            return self.take_value(value, word);
        }
        if let Some(flag) = flag_of(word) {
            return Ok(self.take_flag(flag));
        }
        if let Some(value) = value_of(word) {
            return Ok(self.take_option(value));
        }
        self.take_joined(word)
    }

    /// The command of these words with arguments.
    pub fn with_args(self, args: Vec<Text>) -> Command
        ensures { result ≡ Words.command_by self args.items }
    {
        let Told {
            kind,
            options,
            defines,
            folders,
            files,
            out,
            cycles,
            known,
            number,
            ..
        } = self;
        Command {
            kind,
            options,
            defines,
            folders,
            files,
            args,
            out,
            cycles,
            known,
            number: number.unwrap_or(0),
        }
    }
}
