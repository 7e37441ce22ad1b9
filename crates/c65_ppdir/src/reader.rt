// Reading the lines of a file: the macros, the tokens so far, and what each line does.
ghost use Rattle.std.specs.Prelude.{◌≡◌, ◌⊎◌, [], Some, if◌then◌else◌, unwrap_or, IfErr, OnOk};
ghost use Rattle.c65_base.specs.Answers.{Gives};
ghost use Rattle.c65_base.specs.declared.refusal.Refusal.TheVariants.{OutOfMemory};
ghost use Rattle.c65_ppline.specs.Causes.{Stops};
ghost use Rattle.c65_ppline.specs.Conditions;
ghost use Rattle.c65_ppline.specs.DirectiveLines.{IsDeed};
ghost use Rattle.c65_ppdir.specs.Files.{Reads};
ghost use Rattle.c65_ppfile.specs.Counts.{Serves, outside};
ghost use Rattle.c65_pptext.specs.Reading.{Held};
ghost use Rattle.c65_ppdir.specs.LineActions;
ghost use Rattle.c65_ppline.specs.MacroLines;
ghost use Rattle.c65_ppline.specs.NumberLines;
ghost use Rattle.c65_ppdir.specs.Progress;
ghost use Rattle.c65_ppdir.specs.Progress.{progress, flushed, Settles};
ghost use Rattle.c65_ppline.specs.Relations.{Comes, IsFree};

use crate::opened::{Opened, Unseen};
use crate::tokens::Output;
use c65_base::{Code, Name, Names, Pos, Refusal, Text};
use c65_io::Files;
use c65_lex::{PpToken, PpTokens};
use c65_macro::Macros;
use c65_ppexpr::condition_line;
use c65_ppfile::{Header, include_line};
use c65_ppline::{
    Count, Deed, Groups, Line, Part, Test, deed_of, define_line, head_of, is_mark, is_word,
    number_line, part_of, read_only_name, undef_line,
};
use c65_pptext::Read;
use std::alloc::Global;

/// What a line asks for.
#[derive(Drop)]
pub enum Turn {
    /// Nothing more.
    Line,
    /// That this header is included.
    Include(Header),
    /// Nothing: the file is at its end.
    FileEnd,
}

/// What the files of a unit share: the macros, and the tokens so far.
#[derive(Drop)]
pub struct Reader {
    macros: Macros,
    output: Output,
    alloc: Global,
}

impl Reader {
    pub fn new(alloc: Global, macros: Macros) -> Reader
        ensures table { result.macros ≡ macros }
        ensures given { result.output.given ≡ [] }
        ensures list { result.output.list.items ≡ [] }
    {
        Reader {
            macros,
            output: Output::new(alloc),
            alloc,
        }
    }

    /// How lines are counted and the file is named from here on.
    pub fn count_from(&mut self, literal: Name, count: Count)
        ensures table { self.new.macros ≡ record self.old.macros { file = literal; offset = NumberLines.offset count } }
        ensures output { self.new.output ≡ self.old.output }
    {
        self.macros.set_line(literal, count.offset());
    }

    /// The tokens of the unit.
    pub fn into_tokens(self) -> PpTokens
        ensures { result ≡ self.output.given }
    {
        let Reader { output, .. } = self;
        output.into_tokens()
    }

    /// Ends the list and gives its expansion to the unit.
    fn flush(&mut self, names: &mut Names) -> Result<(), Refusal>
        ensures stops { IfErr result Stops }
        ensures exact { (held : Held) (file : Opened) → Comes (λ _. progress held self.new file names.new) (flushed (progress held self.old file names.old)) result }
    {
        self.output.flush(&self.macros, names)
    }

    /// What comes first of a fault that is found here and the faults of the list before it.
    fn settle(&mut self, names: &mut Names, fault: Refusal) -> Refusal
        requires { Stops fault }
        ensures stops { Stops result }
        ensures exact { (held : Held) (file : Opened) → IsFree result ⊎ Settles fault (progress held self.old file names.old) result }
    {
        match self.flush(names) {
            Ok(()) => fault,
            Err(refusal) => earlier(fault, refusal),
        }
    }

    /// The next line of a file.
    pub fn turn<F: Files>(
        &mut self,
        files: &mut F,
        folders: &[Text],
        file: &mut Opened,
        names: &mut Names,
    ) -> Result<Turn, Refusal>
        ensures serves { Serves folders.now (outside (F.contents files.old) (F.write_faults files.old) (F.faults files.old) (F.misses files.old))
            (outside (F.contents files.new) (F.write_faults files.new) (F.faults files.new) (F.misses files.new)) result }
        ensures exact { (held : Held) → F.contents files.old ≡ Some held → Reads held file.old file.new (Comes (λ t. (t, progress held self.new file.new names.new)) (LineActions.turn (progress held self.old file.old names.old)) result) result }
    {
        if file.groups.is_active() {
            self.active(files, folders, file, names)
        } else {
            self.inactive(files, folders, file, names)
        }
    }

    /// A line that is read.
    fn active<F: Files>(
        &mut self,
        files: &mut F,
        folders: &[Text],
        file: &mut Opened,
        names: &mut Names,
    ) -> Result<Turn, Refusal>
        ensures serves { Serves folders.now (outside (F.contents files.old) (F.write_faults files.old) (F.faults files.old) (F.misses files.old))
            (outside (F.contents files.new) (F.write_faults files.new) (F.faults files.new) (F.misses files.new)) result }
        ensures exact { (held : Held) → F.contents files.old ≡ Some held → Reads held file.old file.new (Comes (λ t. (t, progress held self.new file.new names.new)) (LineActions.active (progress held self.old file.old names.old)) result) result }
    {
        match file.read(files, folders, names, false) {
            Ok(Read::Token(token)) => {
                if is_mark(names, &token, b"#") {
                    self.behind_list(files, folders, file, names, token.pos)
                } else {
                    self.text(files, folders, file, names, token)
                }
            }
            Ok(Read::LineEnd(token)) => match self.output.add(token) {
                Ok(()) => Ok(Turn::Line),
                Err(refusal) => Err(refusal),
            },
            Ok(Read::End) => self.close(file, names),
            Ok(Read::Cut(cut)) => Err(self.settle(names, cut.refusal())),
            Err(refusal) => Err(refusal),
        }
    }

    /// The directive that ends a list, with its # at this place.
    fn behind_list<F: Files>(
        &mut self,
        files: &mut F,
        folders: &[Text],
        file: &mut Opened,
        names: &mut Names,
        hash: Pos,
    ) -> Result<Turn, Refusal>
        ensures serves { Serves folders.now (outside (F.contents files.old) (F.write_faults files.old) (F.faults files.old) (F.misses files.old))
            (outside (F.contents files.new) (F.write_faults files.new) (F.faults files.new) (F.misses files.new)) result }
        ensures exact { (held : Held) → F.contents files.old ≡ Some held → Reads held file.old file.new (Comes (λ t. (t, progress held self.new file.new names.new)) (LineActions.behind_list hash (progress held self.old file.old names.old)) result) result }
    {
        match self.flush(names) {
            Ok(()) => self.directive(files, folders, file, names, hash),
            Err(refusal) => Err(refusal),
        }
    }

    /// A line that is no directive, with its first token.
    fn text<F: Files>(
        &mut self,
        files: &mut F,
        folders: &[Text],
        file: &mut Opened,
        names: &mut Names,
        token: PpToken,
    ) -> Result<Turn, Refusal>
        ensures serves { Serves folders.now (outside (F.contents files.old) (F.write_faults files.old) (F.faults files.old) (F.misses files.old))
            (outside (F.contents files.new) (F.write_faults files.new) (F.faults files.new) (F.misses files.new)) result }
        ensures exact { (held : Held) → F.contents files.old ≡ Some held → Reads held file.old file.new (Comes (λ t. (t, progress held self.new file.new names.new)) (LineActions.text token (progress held self.old file.old names.old)) result) result }
    {
        match self.output.add(token) {
            Ok(()) => {}
            Err(refusal) => return Err(refusal),
        }
        match self.text_line(files, folders, file, names) {
            Ok(()) => Ok(Turn::Line),
            Err(refusal) => Err(refusal),
        }
    }

    /// The rest of a line that is no directive.
    fn text_line<F: Files>(
        &mut self,
        files: &mut F,
        folders: &[Text],
        file: &mut Opened,
        names: &mut Names,
    ) -> Result<(), Refusal>
        ensures serves { Serves folders.now (outside (F.contents files.old) (F.write_faults files.old) (F.faults files.old) (F.misses files.old))
            (outside (F.contents files.new) (F.write_faults files.new) (F.faults files.new) (F.misses files.new)) result }
        ensures exact { (held : Held) → F.contents files.old ≡ Some held → Reads held file.old file.new (Comes (λ _. progress held self.new file.new names.new) (LineActions.text_line (progress held self.old file.old names.old)) result) result }
    {
        for _ in 0..u64::MAX {
            match file.read(files, folders, names, false) {
                Ok(Read::Token(token)) => match self.output.add(token) {
                    Ok(()) => {}
                    Err(refusal) => return Err(refusal),
                },
                Ok(Read::LineEnd(token)) => return self.output.add(token),
                Ok(Read::End) => return Ok(()),
                Ok(Read::Cut(cut)) => {
                    self.output.take_back(cut);
                    return Err(self.settle(names, cut.refusal()));
                }
                Err(refusal) => return Err(refusal),
            }
        }
        Err(Refusal::OutOfMemory)
    }

    /// A line that is skipped unless it is a directive.
    fn inactive<F: Files>(
        &mut self,
        files: &mut F,
        folders: &[Text],
        file: &mut Opened,
        names: &mut Names,
    ) -> Result<Turn, Refusal>
        ensures serves { Serves folders.now (outside (F.contents files.old) (F.write_faults files.old) (F.faults files.old) (F.misses files.old))
            (outside (F.contents files.new) (F.write_faults files.new) (F.faults files.new) (F.misses files.new)) result }
        ensures exact { (held : Held) → F.contents files.old ≡ Some held → Reads held file.old file.new (Comes (λ t. (t, progress held self.new file.new names.new)) (LineActions.inactive (progress held self.old file.old names.old)) result) result }
    {
        match file.read_unseen(files, folders, self.alloc) {
            Ok(Unseen::Hash(pos)) => match self.passed(files, folders, file, names, pos) {
                Ok(()) => Ok(Turn::Line),
                Err(refusal) => Err(refusal),
            },
            Ok(Unseen::Token) => match file.skip_line(files, folders, self.alloc) {
                Ok(()) => Ok(Turn::Line),
                Err(refusal) => Err(refusal),
            },
            Ok(Unseen::LineEnd) => Ok(Turn::Line),
            Ok(Unseen::End) => self.close(file, names),
            Ok(Unseen::Cut(cut)) => Err(cut.refusal()),
            Err(refusal) => Err(refusal),
        }
    }

    /// Ends a file.
    fn close(&mut self, file: &Opened, names: &mut Names) -> Result<Turn, Refusal>
        ensures stops { IfErr result Stops }
        ensures exact { (held : Held) → Comes (λ t. (t, progress held self.new file.now names.new)) (LineActions.closed (progress held self.old file.now names.old)) result }
    {
        match file.groups.first_open() {
            Some(pos) => Err(self.settle(names, Refusal::fault(Code::OpenConditional, pos))),
            None => match self.flush(names) {
                Ok(()) => Ok(Turn::FileEnd),
                Err(refusal) => Err(refusal),
            },
        }
    }

    /// A directive with its # at this place.
    fn directive<F: Files>(
        &mut self,
        files: &mut F,
        folders: &[Text],
        file: &mut Opened,
        names: &mut Names,
        hash: Pos,
    ) -> Result<Turn, Refusal>
        ensures serves { Serves folders.now (outside (F.contents files.old) (F.write_faults files.old) (F.faults files.old) (F.misses files.old))
            (outside (F.contents files.new) (F.write_faults files.new) (F.faults files.new) (F.misses files.new)) result }
        ensures exact { (held : Held) → F.contents files.old ≡ Some held → Reads held file.old file.new (Comes (λ t. (t, progress held self.new file.new names.new)) (LineActions.directive hash (progress held self.old file.old names.old)) result) result }
    {
        match file.read_line(files, folders, self.alloc, names, hash) {
            Ok(line) => {
                let deed = deed_of(hash, head_of(names, line.tokens.as_slice()));
                self.obey(file, names, deed, line)
            }
            Err(refusal) => Err(refusal),
        }
    }

    /// Does what a directive says.
    fn obey(
        &mut self,
        file: &mut Opened,
        names: &mut Names,
        deed: Deed,
        line: Line,
    ) -> Result<Turn, Refusal>
        requires { IsDeed deed }
        ensures stops { IfErr result Stops }
        ensures exact { (held : Held) → Comes (λ t. (t, progress held self.new file.new names.new)) (LineActions.obeyed deed line (progress held self.old file.old names.old)) result }
        ensures text { file.new.text ≡ file.old.text }
    {
        match deed {
            Deed::Include => match include_line(self.alloc, &self.macros, names, line) {
                Ok(header) => Ok(Turn::Include(header)),
                Err(refusal) => Err(refusal),
            },
            Deed::Refused(code, pos) => Err(Refusal::fault(code, pos)),
            Deed::Nothing => as_line(line.check()),
            Deed::Define => as_line(define_line(self.alloc, &mut self.macros, names, line)),
            Deed::Undef => as_line(undef_line(&mut self.macros, names, line)),
            Deed::Renumber => as_line(self.renumber(file, names, line)),
            Deed::Pragma => as_line(pragma_line(names, line)),
            Deed::Group(part) => as_line(self.part(file, names, part, line)),
        }
    }

    /// A directive among lines that are skipped.
    fn passed<F: Files>(
        &mut self,
        files: &mut F,
        folders: &[Text],
        file: &mut Opened,
        names: &mut Names,
        hash: Pos,
    ) -> Result<(), Refusal>
        ensures serves { Serves folders.now (outside (F.contents files.old) (F.write_faults files.old) (F.faults files.old) (F.misses files.old))
            (outside (F.contents files.new) (F.write_faults files.new) (F.faults files.new) (F.misses files.new)) result }
        ensures exact { (held : Held) → F.contents files.old ≡ Some held → Reads held file.old file.new (Comes (λ _. progress held self.new file.new names.new) (LineActions.passed hash (progress held self.old file.old names.old)) result) result }
    {
        match file.read_line(files, folders, self.alloc, names, hash) {
            Ok(line) => match part_of(head_of(names, line.tokens.as_slice())) {
                Some(part) => self.part(file, names, part, line),
                None => line.check(),
            },
            Err(refusal) => Err(refusal),
        }
    }

    /// Begins or ends a part of the innermost group.
    fn part(
        &mut self,
        file: &mut Opened,
        names: &mut Names,
        part: Part,
        line: Line,
    ) -> Result<(), Refusal>
        ensures stops { IfErr result Stops }
        ensures exact { (held : Held) → Comes (λ _. progress held self.new file.new names.new) (LineActions.parted part line (progress held self.old file.old names.old)) result }
        ensures text { file.new.text ≡ file.old.text }
    {
        match part {
            Part::Begin(test) => match file.groups.begin(line.hash) {
                Ok(is_read) => self.begin_part(file, names, test, line, is_read),
                Err(refusal) => Err(refusal),
            },
            Part::Alternate => match file.groups.alternate(line.hash) {
                Ok(is_read) => self.begin_part(file, names, Test::Condition, line, is_read),
                Err(refusal) => Err(refusal),
            },
            Part::Otherwise => match file.groups.otherwise(line.hash) {
                Ok(()) => line.check(),
                Err(refusal) => Err(refusal),
            },
            Part::End => match file.groups.end(line.hash) {
                Ok(()) => line.check(),
                Err(refusal) => Err(refusal),
            },
        }
    }

    /// Begins a part of the innermost group, whose condition is read where it counts.
    fn begin_part(
        &mut self,
        file: &mut Opened,
        names: &mut Names,
        test: Test,
        line: Line,
        is_read: bool,
    ) -> Result<(), Refusal>
        ensures stops { IfErr result Stops }
        ensures exact { (held : Held) → Comes (λ _. progress held self.new file.new names.new) (LineActions.begun_if is_read test line (progress held self.old file.old names.old)) result }
        ensures text { file.new.text ≡ file.old.text }
    {
        if is_read {
            self.decide(file, names, test, line)
        } else {
            line.check()
        }
    }

    /// Reads the condition of a part of the innermost group, and takes the part where it holds.
    fn decide(
        &mut self,
        file: &mut Opened,
        names: &mut Names,
        test: Test,
        line: Line,
    ) -> Result<(), Refusal>
        ensures stops { IfErr result Stops }
        ensures exact { (held : Held) → Comes (λ _. progress held self.new file.new names.new) (LineActions.decided test line (progress held self.old file.old names.old)) result }
        ensures text { file.new.text ≡ file.old.text }
    {
        match test {
            Test::Condition => match condition_line(self.alloc, &self.macros, names, line) {
                Ok(holds) => choose(&mut file.groups, holds),
                Err(refusal) => Err(refusal),
            },
            Test::Defined => match is_defined_in(&self.macros, line) {
                Ok(holds) => choose(&mut file.groups, holds),
                Err(refusal) => Err(refusal),
            },
            Test::Undefined => match is_defined_in(&self.macros, line) {
                Ok(holds) => choose(&mut file.groups, !holds),
                Err(refusal) => Err(refusal),
            },
        }
    }

    /// Does a #line line.
    fn renumber(&mut self, file: &mut Opened, names: &mut Names, line: Line) -> Result<(), Refusal>
        ensures stops { IfErr result Stops }
        ensures exact { (held : Held) → Comes (λ _. progress held self.new file.new names.new) (LineActions.renumbering line (progress held self.old file.old names.old)) result }
        ensures text { file.new.text ≡ file.old.text }
    {
        let real = line.end;
        match number_line(&self.macros, names, line) {
            Ok(given) => {
                file.count = Count {
                    given: given.number,
                    real,
                };
                file.literal = literal_by(given.file, file.literal);
                self.count_from(file.literal, file.count);
                Ok(())
            }
            Err(refusal) => Err(refusal),
        }
    }
}

/// A file's new name, or the one that it has.
fn literal_by(given: Option<Name>, literal: Name) -> Name
    ensures { result ≡ unwrap_or given literal }
{
    match given {
        Some(given) => given,
        None => literal,
    }
}

/// Which fault comes first: one that is found here, or one of the list before it.
fn earlier(fault: Refusal, refusal: Refusal) -> Refusal
    ensures exact { result ≡ Progress.earlier fault refusal }
    ensures stops { Stops fault → Stops refusal → Stops result }
{
    match refusal {
        // These are found only where the list ends.
        Refusal::At {
            code: Code::OpenArguments,
            ..
        } => fault,
        other => other,
    }
}

/// Takes the part that begins, where its condition holds.
fn choose(groups: &mut Groups, holds: bool) -> Result<(), Refusal>
    ensures refused { IfErr result (λ e. e ≡ OutOfMemory) }
    ensures exact { OnOk result (groups.new ≡ (if holds then Conditions.taken groups.old else groups.old)) }
{
    if holds { groups.take() } else { Ok(()) }
}

/// A line that asks for nothing more.
fn as_line(answer: Result<(), Refusal>) -> Result<Turn, Refusal>
    ensures { result ≡ LineActions.as_line answer }
{
    match answer {
        Ok(()) => Ok(Turn::Line),
        Err(refusal) => Err(refusal),
    }
}

/// Whether the only name of a line is that of a macro.
fn is_defined_in(macros: &Macros, line: Line) -> Result<bool, Refusal>
    ensures stops { IfErr result Stops }
    ensures exact { Gives (λ b. b) result (MacroLines.is_defined macros.now line) }
{
    match line.answer(read_only_name(line.rest())) {
        Ok(name) => Ok(macros.get(name).is_some()),
        Err(refusal) => Err(refusal),
    }
}

/// Does a #pragma line: it is passed over, but for one that is refused.
fn pragma_line(names: &Names, line: Line) -> Result<(), Refusal>
    ensures stops { IfErr result Stops }
    ensures exact { Gives (λ _. tt) result (MacroLines.pragma names.now line) }
{
    if let Some((first, _)) = line.rest().split_first() {
        if is_word(names, first, b"charmap") {
            return Err(Refusal::fault(Code::Charmap, line.hash));
        }
    }
    line.check()
}
