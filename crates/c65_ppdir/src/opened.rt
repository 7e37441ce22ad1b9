// A file that is open: what is left of its text, how its lines are counted, and its groups.
ghost use Rattle.std.specs.Prelude.{◌≡◌, [], Some, None, IfErr};
ghost use Rattle.c65_base.specs.declared.refusal.Refusal.TheVariants.{OutOfMemory};
ghost use Rattle.c65_ppfile.specs.Counts.{Serves, outside};
ghost use Rattle.c65_ppline.specs.Causes.{Stops};
ghost use Rattle.c65_ppline.specs.NumberLines.{own_count};
ghost use Rattle.c65_ppline.specs.Relations.{Comes};
ghost use Rattle.c65_ppdir.specs.Files.{OrFree, Reads, opened_as};
ghost use Rattle.c65_ppdir.specs.Gathering;
ghost use Rattle.c65_ppdir.specs.Gathering.{IsLineRead, gathering};
ghost use Rattle.c65_ppdir.specs.Opening;
ghost use Rattle.c65_ppdir.specs.Opening.{IsReadNext, IsSeenNext, skipped};
ghost use Rattle.c65_pptext.specs.Reading.{Held};

use c65_base::{Name, Names, Pos, Refusal, Text};
use c65_io::Files;
use c65_lex::{PpToken, PpTokens};
use c65_ppline::{Count, Cut, Groups, Line, is_mark, is_word};
use c65_pptext::{FileText, Read};
use std::alloc::Global;

/// A file that is open.
#[derive(Drop)]
pub struct Opened {
    /// What is left of its text.
    pub text: FileText,
    /// Its number in the unit's list.
    pub number: u64,
    /// Its name as a string literal.
    pub literal: Name,
    pub count: Count,
    pub groups: Groups,
}

/// What is read next of lines that are skipped.
#[derive(Drop)]
pub enum Unseen {
    /// A # at this place.
    Hash(Pos),
    Token,
    LineEnd,
    End,
    Cut(Cut),
}

/// What was read of a line that is skipped.
fn unseen_of(names: &Names, read: Read) -> Unseen
    ensures { result ≡ Opening.unseen names.now read }
{
    match read {
        Read::Token(token) if is_mark(names, &token, b"#") => Unseen::Hash(token.pos),
        Read::Token(_) => Unseen::Token,
        Read::LineEnd(_) => Unseen::LineEnd,
        Read::End => Unseen::End,
        Read::Cut(cut) => Unseen::Cut(cut),
    }
}

/// Whether a line that is skipped goes on behind this.
fn has_more(read: Unseen) -> Result<bool, Refusal>
    ensures stops { IfErr result Stops }
    ensures exact { result ≡ Opening.has_more read }
{
    match read {
        Unseen::Hash(_) | Unseen::Token => Ok(true),
        Unseen::LineEnd | Unseen::End => Ok(false),
        Unseen::Cut(cut) => Err(cut.refusal()),
    }
}

/// The tokens of a line that are used, where this cuts it off.
fn used(cut: Cut, tokens: Vec<PpToken>) -> PpTokens
    ensures { result ≡ Gathering.used cut tokens.items }
{
    let mut tokens = tokens;
    if cut == Cut::LongFile {
        let _ = tokens.pop();
    }
    PpTokens::from_vec(tokens)
}

/// A line that has its end.
fn whole_line(hash: Pos, tokens: Vec<PpToken>, end: u32) -> Line
    ensures { result ≡ Gathering.line_of hash tokens.items end None }
{
    Line {
        hash,
        tokens: PpTokens::from_vec(tokens),
        end,
        cut: None,
    }
}

fn cut_line(hash: Pos, tokens: Vec<PpToken>, cut: Cut) -> Line
    ensures { result ≡ Gathering.line_of hash (Gathering.used cut tokens.items) hash.line (Some cut) }
{
    Line {
        hash,
        tokens: used(cut, tokens),
        end: hash.line,
        cut: Some(cut),
    }
}

impl Opened {
    /// A file with this text.
    pub fn new(alloc: Global, text: FileText, number: u64, literal: Name) -> Opened
        ensures { result ≡ record { text = text; number = number; literal = literal; count = own_count; groups = [] } }
    {
        Opened {
            text,
            number,
            literal,
            count: Count::own(),
            groups: Groups::new(alloc),
        }
    }

    /// Reads a token, and what is needed of the file.
    pub fn read<F: Files>(
        &mut self,
        files: &mut F,
        folders: &[Text],
        names: &mut Names,
        header: bool,
    ) -> Result<Read, Refusal>
        ensures serves { Serves folders.now (outside (F.contents files.old) (F.write_faults files.old) (F.faults files.old) (F.misses files.old))
            (outside (F.contents files.new) (F.write_faults files.new) (F.faults files.new) (F.misses files.new)) result }
        ensures exact { (held : Held) → F.contents files.old ≡ Some held → Reads held self.old self.new (OrFree (λ r. IsReadNext header (opened_as held self.old) names.old r (opened_as held self.new) names.new) result) result }
    {
        self.text.read(files, folders, names, header)
    }

    /// Reads a token of a line that is skipped, whose spelling gets no name.
    pub fn read_unseen<F: Files>(
        &mut self,
        files: &mut F,
        folders: &[Text],
        alloc: Global,
    ) -> Result<Unseen, Refusal>
        ensures serves { Serves folders.now (outside (F.contents files.old) (F.write_faults files.old) (F.faults files.old) (F.misses files.old))
            (outside (F.contents files.new) (F.write_faults files.new) (F.faults files.new) (F.misses files.new)) result }
        ensures exact { (held : Held) → F.contents files.old ≡ Some held → Reads held self.old self.new (OrFree (λ u. IsSeenNext (opened_as held self.old) u (opened_as held self.new)) result) result }
    {
        let mut names = Names::new(alloc);
        match self.read(files, folders, &mut names, false) {
            Ok(read) => Ok(unseen_of(&names, read)),
            Err(refusal) => Err(refusal),
        }
    }

    /// Skips the rest of a line.
    pub fn skip_line<F: Files>(
        &mut self,
        files: &mut F,
        folders: &[Text],
        alloc: Global,
    ) -> Result<(), Refusal>
        ensures serves { Serves folders.now (outside (F.contents files.old) (F.write_faults files.old) (F.faults files.old) (F.misses files.old))
            (outside (F.contents files.new) (F.write_faults files.new) (F.faults files.new) (F.misses files.new)) result }
        ensures exact { (held : Held) → F.contents files.old ≡ Some held → Reads held self.old self.new (Comes (λ _. opened_as held self.new) (skipped (opened_as held self.old)) result) result }
    {
        for _ in 0..u64::MAX {
            match self.read_unseen(files, folders, alloc) {
                Ok(read) => match has_more(read) {
                    Ok(is_more) => {
                        if !is_more {
                            return Ok(());
                        }
                    }
                    Err(refusal) => return Err(refusal),
                },
                Err(refusal) => return Err(refusal),
            }
        }
        Err(Refusal::OutOfMemory)
    }

    /// Reads the line behind a #. A header name may stand behind `include`.
    pub fn read_line<F: Files>(
        &mut self,
        files: &mut F,
        folders: &[Text],
        alloc: Global,
        names: &mut Names,
        hash: Pos,
    ) -> Result<Line, Refusal>
        ensures serves { Serves folders.now (outside (F.contents files.old) (F.write_faults files.old) (F.faults files.old) (F.misses files.old))
            (outside (F.contents files.new) (F.write_faults files.new) (F.faults files.new) (F.misses files.new)) result }
        ensures exact { (held : Held) → F.contents files.old ≡ Some held → Reads held self.old self.new (OrFree (λ line. IsLineRead hash (opened_as held self.old) names.old (gathering line (opened_as held self.new) names.new)) result) result }
    {
        let mut tokens: Vec<PpToken> = Vec::new(alloc);
        for _ in 0..u64::MAX {
            let header = allows_header(names, &tokens);
            match self.read(files, folders, names, header) {
                Ok(Read::Token(token)) => tokens.push(token)?,
                Ok(Read::LineEnd(token)) => return Ok(whole_line(hash, tokens, token.pos.line)),
                Ok(Read::End) => return Ok(whole_line(hash, tokens, hash.line)),
                Ok(Read::Cut(cut)) => return Ok(cut_line(hash, tokens, cut)),
                Err(refusal) => return Err(refusal),
            }
        }
        Err(Refusal::OutOfMemory)
    }
}

/// Whether a header name may stand behind these tokens of a directive (C90 6.1.7).
fn allows_header(names: &Names, tokens: &[PpToken]) -> bool
    ensures { result ≡ Gathering.allows_header names.now tokens.now }
{
    match tokens {
        [only] => is_word(names, only, b"include"),
        _ => false,
    }
}
