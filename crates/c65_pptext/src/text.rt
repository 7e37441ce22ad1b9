// The text of a file, of which no more than a few pieces are held.
ghost use Rattle.std.specs.Prelude.{◌≡◌, ◌≤◌, ◌<◌, ◌+◌, ℕ, List, [], length, min, Some, None, IfOk, IfErr, OnOk, OnErr};
ghost use Rattle.c65_base.specs.Limits.{limit_of};
ghost use Rattle.c65_base.specs.declared.refusal.Refusal.TheVariants.{OutOfMemory};
ghost use Rattle.c65_base.specs.declared.refusal.Size.TheVariants.{File};
ghost use Rattle.c65_ppfile.specs.Counts.{Serves, outside};
ghost use Rattle.c65_ppfile.specs.Finding.{Begins};
ghost use Rattle.c65_pieces.specs.Pieces.{TakesPiece, KnowsMore, IsFinished, nothing_given};
ghost use Rattle.c65_ppline.specs.Relations.{IsFree};
ghost use Rattle.c65_pptext.specs.declared.ending.Ending.TheVariants.{Whole};
ghost use Rattle.c65_pptext.specs.Kept;
ghost use Rattle.c65_pptext.specs.Kept.{line_behind};
ghost use Rattle.c65_pptext.specs.Reading.{Held, IsOnWay, IsTold, IsReadBehind, IsSame, EndsSo, IsLeft, IsTextRead, ReadsText, bytes_of, text_as, text_of};

use crate::ending::{Ending, Read, line_behind, read_before, read_of};
use crate::lexing::next_token;
use c65_base::{Names, Refusal, Size, Text};
use c65_io::{FileFault, Files};
use c65_pieces::PieceLexer;
use c65_ppline::Lexed;
use std::alloc::Global;

const PIECE: usize = 4_096;

/// What is left of a file's text: what was given of it and has no token yet, the path under which the rest is read from a byte
/// on, and the name by which it is missing then.
#[derive(Drop)]
pub struct FileText {
    lexer: PieceLexer,
    /// The number of its file.
    number: u64,
    path: Text,
    name: Text,
    at: u32,
    /// The line of the next byte.
    line: u32,
    /// Where the bytes that are kept end, once all of them were given.
    ending: Option<Ending>,
    alloc: Global,
}

/// How many bytes are read from a byte on: a piece of those that are kept, or one that shows whether more follow.
fn wanted(at: u32) -> usize
    ensures some { 0 < result }
    ensures few { result ≤ 4096 }
    ensures within { at < limit_of File → at + result ≤ limit_of File }
{
    let rest = Size::File.number().saturating_sub(at as u64);
    (rest as usize).clamp(1, PIECE)
}

impl FileText {
    /// The text of a file that begins with these bytes.
    pub fn begin(
        alloc: Global,
        number: u64,
        path: Text,
        name: Text,
        first: &[u8],
    ) -> Result<FileText, Refusal>
        requires short { length first.now ≤ 4096 }
        ensures refused { IfErr result (λ e. e ≡ OutOfMemory) }
        ensures exact { IfOk result (λ t. (held : Held) (bytes : List ℕ) → held path ≡ Some bytes → Begins (Some bytes) first.now → IsTold held t × (text_as held t ≡ text_of number bytes)) }
    {
        let mut lexer = PieceLexer::open(alloc, number);
        match lexer.give(first) {
            Ok(()) => Ok(FileText {
                lexer,
                number,
                path,
                name,
                at: first.len() as u32,
                line: line_behind(1, first),
                ending: None,
                alloc,
            }),
            Err(refusal) => Err(refusal),
        }
    }

    /// A text that is all there.
    pub fn whole(alloc: Global, number: u64, text: &[u8]) -> Result<FileText, Refusal>
        requires short { length text.now ≤ 4096 }
        ensures refused { IfErr result (λ e. e ≡ OutOfMemory) }
        ensures exact { IfOk result (λ t. (held : Held) → IsTold held t × (text_as held t ≡ text_of number text.now)) }
    {
        let mut lexer = PieceLexer::open(alloc, number);
        match lexer.give(text) {
            Ok(()) => {
                lexer.finish();
                Ok(FileText {
                    lexer,
                    number,
                    path: Text::from_vec(Vec::new(alloc)),
                    name: Text::from_vec(Vec::new(alloc)),
                    at: 0,
                    line: 1,
                    ending: Some(Ending::Whole),
                    alloc,
                })
            }
            Err(refusal) => Err(refusal),
        }
    }

    /// The bytes that were given are all that are kept, and end so.
    fn end(&mut self, ending: Ending)
        ensures finished { IsFinished self.old.lexer self.new.lexer }
        ensures same { self.new ≡ record self.old { lexer = self.new.lexer; ending = Some ending } }
    {
        self.lexer.finish();
        self.ending = Some(ending);
    }

    /// Takes these bytes, which are the next ones of those that are kept.
    fn take(&mut self, piece: &[u8]) -> Result<(), Refusal>
        requires short { length piece.now ≤ 4096 }
        requires room { TakesPiece self.old.lexer }
        ensures refused { IfErr result (λ e. e ≡ OutOfMemory) }
        ensures knows { OnOk result (KnowsMore self.old.lexer piece.now self.new.lexer) }
        ensures same { OnOk result (self.new ≡ record self.old { lexer = self.new.lexer; at = min (self.old.at + length piece.now) 4294967295; line = line_behind self.old.line piece.now }) }
        ensures kept { OnErr result (self.new ≡ self.old) }
    {
        match self.lexer.give(piece) {
            Ok(()) => {
                self.at = self.at.saturating_add(piece.len() as u32);
                self.line = line_behind(self.line, piece);
                Ok(())
            }
            Err(refusal) => Err(refusal),
        }
    }

    /// Takes what was read, where so many bytes stand first in the piece: none at the end of the file.
    fn take_read(&mut self, piece: &[u8]) -> Result<(), Refusal>
        requires short { length piece.now ≤ 4096 }
        requires room { TakesPiece self.old.lexer }
        ensures refused { IfErr result (λ e. e ≡ OutOfMemory) }
        ensures exact { (held : Held) → self.old.ending ≡ None → IsTold held self.old → IsReadBehind (bytes_of held self.old) self.old.at piece.now → IsSame held self.old self.new }
    {
        if piece.is_empty() {
            self.end(Ending::Whole);
            Ok(())
        } else if self.at as u64 >= Size::File.number() {
            self.end(Ending::Long(self.line));
            Ok(())
        } else {
            self.take(piece)
        }
    }

    /// Reads a piece of the file on, or finds its end.
    fn read_on<F: Files>(&mut self, files: &mut F, folders: &[Text]) -> Result<(), Refusal>
        requires room { TakesPiece self.old.lexer }
        ensures serves { Serves folders.now (outside (F.contents files.old) (F.write_faults files.old) (F.faults files.old) (F.misses files.old))
            (outside (F.contents files.new) (F.write_faults files.new) (F.faults files.new) (F.misses files.new)) result }
        ensures exact { (held : Held) → F.contents files.old ≡ Some held → self.old.ending ≡ None → IsTold held self.old → IsSame held self.old self.new × IfErr result IsFree }
    {
        let _ = folders;
        let mut piece = [0u8; PIECE];
        let into = &mut piece[..wanted(self.at)];
        match files.read(self.path.as_slice(), self.at, into) {
            Ok(count) => self.take_read(&into[..count]),
            Err(FileFault::Missing) => match self.name.copy(self.alloc) {
                Ok(path) => Err(Refusal::Missing { path }),
                Err(_) => Err(Refusal::OutOfMemory),
            },
            Err(FileFault::Failed) => Err(Refusal::ReadFault),
        }
    }

    /// What this is, which comes next of the bytes that were given.
    fn reading(&self, lexed: Lexed) -> Result<Read, Refusal>
        ensures refused { IfErr result (λ e. e ≡ OutOfMemory) }
        ensures exact { IfOk result (λ r. (ending : Ending) → EndsSo self.now.line self.now.ending ending → r ≡ Kept.read_of ending lexed) }
    {
        match self.ending {
            Some(ending) => Ok(read_of(ending, lexed)),
            None => read_before(self.line, lexed),
        }
    }

    /// Nothing is read any more.
    fn leave(&mut self)
        ensures finished { IsFinished (nothing_given self.old.number) self.new.lexer }
        ensures same { self.new ≡ record self.old { lexer = self.new.lexer; ending = Some Whole } }
    {
        self.lexer = PieceLexer::open(self.alloc, self.number);
        self.end(Ending::Whole);
    }

    /// The answer to what comes next of the bytes that were given.
    fn answer(&mut self, lexed: Lexed) -> Result<Read, Refusal>
        ensures refused { IfErr result (λ e. e ≡ OutOfMemory) }
        ensures kept { OnErr result (self.new ≡ self.old) }
        ensures exact { IfOk result (λ r. (ending : Ending) → EndsSo self.old.line self.old.ending ending → r ≡ Kept.read_of ending lexed) }
        ensures left { IfOk result (λ r. IsLeft r self.old self.new) }
    {
        match self.reading(lexed) {
            Ok(Read::Token(token)) => Ok(Read::Token(token)),
            Ok(Read::LineEnd(token)) => Ok(Read::LineEnd(token)),
            Ok(Read::End) => {
                self.leave();
                Ok(Read::End)
            }
            Ok(Read::Cut(cut)) => {
                self.leave();
                Ok(Read::Cut(cut))
            }
            Err(refusal) => Err(refusal),
        }
    }

    /// Reads a token, and as many pieces of the file as it needs, each of at most 4,096 bytes.
    pub fn read<F: Files>(
        &mut self,
        files: &mut F,
        folders: &[Text],
        names: &mut Names,
        header: bool,
    ) -> Result<Read, Refusal>
        ensures serves { Serves folders.now (outside (F.contents files.old) (F.write_faults files.old) (F.faults files.old) (F.misses files.old))
            (outside (F.contents files.new) (F.write_faults files.new) (F.faults files.new) (F.misses files.new)) result }
        ensures exact { (held : Held) → F.contents files.old ≡ Some held → IsTold held self.old → IsTold held self.new × ReadsText (λ r. IsTextRead header (text_as held self.old) names.old r (text_as held self.new) names.new) result }
    {
        for _ in 0..u64::MAX {
            match next_token(&mut self.lexer, names, header) {
                Ok(Some(lexed)) => return self.answer(lexed),
                Ok(None) => match self.read_on(files, folders) {
                    Ok(()) => {}
                    Err(refusal) => return Err(refusal),
                },
                Err(refusal) => return Err(refusal),
            }
        }
        Err(Refusal::OutOfMemory)
    }
}
