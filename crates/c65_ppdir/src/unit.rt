// The lines of a unit: the files that are open, and what the reading of the innermost one asks for.
ghost use Rattle.std.specs.Prelude.{◌≡◌, ◌≤◌, ℕ, List, ◌++◌, length, map, reverse, Some, IfErr, IfOk, OnOk};
ghost use Rattle.c65_ppfile.specs.Counts.{Serves, outside};
ghost use Rattle.c65_pptext.specs.Reading.{Held, IsTold, text_as, text_of};
ghost use Rattle.c65_ppdir.specs.Files.{AreTold, IsToldFile, ReadsUnit, opened_as};
ghost use Rattle.c65_ppline.specs.Causes.{Stops};
ghost use Rattle.c65_ppfile.specs.Headers;
ghost use Rattle.c65_ppdir.specs.Progress.{progress};
ghost use Rattle.c65_ppline.specs.Relations.{Comes};
ghost use Rattle.c65_ppdir.specs.Standing;

use crate::opened::Opened;
use crate::reader::{Reader, Turn};
use c65_base::{Name, Names, Options, Refusal, Size, Text};
use c65_io::Files;
use c65_lex::PpTokens;
use c65_macro::Macros;
use c65_ppfile::{BuiltIn, Header, Included};
use c65_ppline::intern;
use c65_pptext::FileText;
use std::alloc::{AllocError, Global};
use std::mem;

/// What a line asks for.
#[derive(Drop)]
pub enum Event {
    /// Nothing more.
    Line,
    /// That this header is included, in the file of this number.
    Include(Header, u64),
    /// Nothing: the unit is at its end.
    End,
}

/// A unit that is being read: the innermost file, and those that include it, the innermost last.
#[derive(Drop)]
pub struct Unit {
    reader: Reader,
    file: Opened,
    outer: Vec<Opened>,
    included: Included,
    alloc: Global,
}

/// The bytes of a path within a string literal.
fn add_escaped(literal: &mut Vec<u8>, path: &[u8]) -> Result<(), AllocError>
    ensures { OnOk result (literal.new.items ≡ literal.old.items ++ Standing.escaped path.now) }
{
    let mut rest = path;
    while let Some((byte, more)) = rest.split_first() {
        if *byte == b'"' || *byte == b'\\' {
            literal.push(b'\\')?;
        }
        literal.push(*byte)?;
        rest = more;
    }
    Ok(())
}

/// A path as a string literal.
fn literal_of(alloc: Global, path: &[u8]) -> Result<Vec<u8>, AllocError>
    ensures { IfOk result (λ literal. literal.items ≡ Standing.literal_of path.now) }
{
    let mut literal = Vec::new(alloc);
    literal.push(b'"')?;
    add_escaped(&mut literal, path)?;
    literal.push(b'"')?;
    Ok(literal)
}

/// The name of a path as a string literal.
fn literal_name(alloc: Global, names: &mut Names, path: &[u8]) -> Result<Name, Refusal>
    ensures stops { IfErr result Stops }
    ensures exact { Comes (λ n. (n, names.new)) (Standing.learned names.old (Standing.literal_of path.now)) result }
{
    match literal_of(alloc, path) {
        Ok(literal) => intern(names, &literal),
        Err(_) => Err(Refusal::OutOfMemory),
    }
}

impl Unit {
    /// A unit whose first file has this path and text.
    pub fn begin(
        alloc: Global,
        options: &Options,
        macros: Macros,
        names: &mut Names,
        path: &[u8],
        text: FileText,
    ) -> Result<Unit, Refusal>
        ensures stops { IfErr result Stops }
        ensures told { IfOk result (λ u. (held : Held) → IsTold held text → IsToldFile held u.file × AreTold held u.outer.items) }
        ensures exact { (held : Held) (bytes : List ℕ) → text_as held text ≡ text_of 0 bytes → Comes (λ u. Standing.standing held u.reader u.file u.outer.items u.included.headers.items names.new) (Standing.first_standing macros path.now bytes names.old) result }
        ensures signed { IfOk result (λ u. u.included.is_char_signed ≡ options.now.signed_chars) }
    {
        let literal = match literal_name(alloc, names, path) {
            Ok(literal) => literal,
            Err(refusal) => return Err(refusal),
        };
        let file = Opened::new(alloc, text, 0, literal);
        let mut reader = Reader::new(alloc, macros);
        reader.count_from(literal, file.count);
        let outer = Vec::new(alloc);
        let included = Included::new(alloc, options.signed_chars);
        Ok(Unit {
            reader,
            file,
            outer,
            included,
            alloc,
        })
    }

    /// Whether one more file may be open.
    pub fn has_room(&self) -> bool
        ensures { (held : Held) (names : List (List ℕ)) → result ≡ Standing.has_room (Standing.standing held self.now.reader self.now.file self.now.outer.items self.now.included.headers.items names) }
    {
        (self.outer.len() as u64) + 1 < Size::Includes.number()
    }

    /// The text of a built-in header at its inclusion.
    pub fn built_in(&mut self, header: BuiltIn) -> Result<Vec<u8>, AllocError>
        ensures short { IfOk result (λ text. length text.items ≤ 4096) }
        ensures text { IfOk result (λ text. text.items ≡ Headers.text_behind self.old.included.is_char_signed self.old.included.headers.items header) }
        ensures headers { OnOk result (self.new.included.headers.items ≡ Headers.with_header self.old.included.headers.items header) }
        ensures same { (self.new.reader ≡ self.old.reader) × (self.new.file ≡ self.old.file) × (self.new.outer ≡ self.old.outer) × (self.new.included.is_char_signed ≡ self.old.included.is_char_signed) }
    {
        self.included.include(header)
    }

    /// Opens a file with this path, text and number.
    pub fn open(
        &mut self,
        names: &mut Names,
        path: &[u8],
        text: FileText,
        number: u64,
    ) -> Result<(), Refusal>
        ensures stops { IfErr result Stops }
        ensures told { OnOk result ((held : Held) → IsTold held text → IsToldFile held self.old.file → AreTold held self.old.outer.items → IsToldFile held self.new.file × AreTold held self.new.outer.items) }
        ensures exact { (held : Held) (bytes : List ℕ) → text_as held text ≡ text_of number bytes → Comes (λ _. Standing.standing held self.new.reader self.new.file self.new.outer.items self.new.included.headers.items names.new) (Standing.opening number path.now bytes (Standing.standing held self.old.reader self.old.file self.old.outer.items self.old.included.headers.items names.old)) result }
        ensures signed { self.new.included.is_char_signed ≡ self.old.included.is_char_signed }
    {
        let literal = match literal_name(self.alloc, names, path) {
            Ok(literal) => literal,
            Err(refusal) => return Err(refusal),
        };
        let file = Opened::new(self.alloc, text, number, literal);
        self.reader.count_from(literal, file.count);
        let outer = mem::replace(&mut self.file, file);
        self.outer.push(outer)?;
        Ok(())
    }

    /// Reads a line of the innermost file.
    pub fn advance<F: Files>(
        &mut self,
        files: &mut F,
        folders: &[Text],
        names: &mut Names,
    ) -> Result<Event, Refusal>
        ensures serves { Serves folders.now (outside (F.contents files.old) (F.write_faults files.old) (F.faults files.old) (F.misses files.old))
            (outside (F.contents files.new) (F.write_faults files.new) (F.faults files.new) (F.misses files.new)) result }
        ensures exact { (held : Held) → F.contents files.old ≡ Some held → ReadsUnit held self.old.file self.old.outer.items self.new.file self.new.outer.items (Comes (λ e. (e, Standing.standing held self.new.reader self.new.file self.new.outer.items self.new.included.headers.items names.new)) (Standing.advanced (Standing.standing held self.old.reader self.old.file self.old.outer.items self.old.included.headers.items names.old)) result) result }
        ensures signed { self.new.included.is_char_signed ≡ self.old.included.is_char_signed }
    {
        let number = self.file.number;
        match self.reader.turn(files, folders, &mut self.file, names) {
            Ok(Turn::Line) => Ok(Event::Line),
            Ok(Turn::Include(header)) => Ok(Event::Include(header, number)),
            Ok(Turn::FileEnd) => Ok(self.leave()),
            Err(refusal) => Err(refusal),
        }
    }

    /// Goes back to the file that includes the innermost one.
    fn leave(&mut self) -> Event
        ensures told { (held : Held) → IsToldFile held self.old.file → AreTold held self.old.outer.items → IsToldFile held self.new.file × AreTold held self.new.outer.items }
        ensures exact { (held : Held) (names : List (List ℕ)) → (result, Standing.standing held self.new.reader self.new.file self.new.outer.items self.new.included.headers.items names) ≡ Standing.left (progress held self.old.reader self.old.file names) (map (opened_as held) (reverse self.old.outer.items)) self.old.included.headers.items }
        ensures signed { self.new.included.is_char_signed ≡ self.old.included.is_char_signed }
    {
        match self.outer.pop() {
            Some(file) => {
                self.reader.count_from(file.literal, file.count);
                self.file = file;
                Event::Line
            }
            None => Event::End,
        }
    }

    /// The tokens of the unit.
    pub fn into_tokens(self) -> PpTokens
        ensures { result ≡ self.reader.output.given }
    {
        let Unit { reader, .. } = self;
        reader.into_tokens()
    }
}
