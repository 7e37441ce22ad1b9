// The entry of the crate: a file and all that it includes.
ghost use Rattle.std.specs.Prelude.{◌≡◌, ◌≤◌, ◌∷◌, ◌++◌, ℕ, List, [], length, Some, IfErr, IfOk, OnOk};
ghost use Rattle.c65_base.specs.declared.refusal.Refusal.TheVariants.{OutOfMemory};
ghost use Rattle.c65_ppline.specs.Causes.{Stops, StopsReading, StopsUnit, StopsCommand};
ghost use Rattle.c65_ppfile.specs.Counts.{FaultCause, MissCause, Relocates, Serves, outside};
ghost use Rattle.c65_ppfile.specs.Finding;
ghost use Rattle.c65_ppfile.specs.Finding.{Begins, IsThere, IsShort, Includes, Misses, MissesInUnit};
ghost use Rattle.c65_ppline.specs.Relations.{Comes};
ghost use Rattle.c65_ppdir.specs.Units;
ghost use Rattle.c65_ppdir.specs.Units.{Held, Source, IsFor, ComesAt, Steps, IsToldUnit, AreToldWhere, around, reached, unit_of};
ghost use Rattle.c65_pptext.specs.Reading.{IsTold, text_as, text_of};

use crate::command::define_all;
use crate::unit::{Event, Unit};
use c65_base::{Names, Options, Refusal, Size, Text};
use c65_io::Files;
use c65_lex::{Define, Paths, PpTokens, PpUnit};
use c65_macro::Macros;
use c65_ppfile::{BuiltIn, Found, Header, begin_main, seek};
use c65_pptext::FileText;
use std::alloc::Global;

/// Opens a file with this path and text, and adds its path to the unit's list.
fn open(
    unit: &mut Unit,
    names: &mut Names,
    paths: &mut Vec<Text>,
    path: Text,
    text: FileText,
) -> Result<(), Refusal>
    ensures stops { IfErr result Stops }
    ensures told { OnOk result ((held : Held) → IsTold held text → IsToldUnit held unit.old → IsToldUnit held unit.new) }
    ensures exact { (held : Held) (bytes : List ℕ) → text_as held text ≡ text_of (length paths.old.items) bytes → Comes (λ _. reached held unit.new names.new paths.new.items) (Units.opening_file path bytes (reached held unit.old names.old paths.old.items)) result }
    ensures signed { unit.new.included.is_char_signed ≡ unit.old.included.is_char_signed }
{
    let number = paths.len() as u64;
    match unit.open(names, path.as_slice(), text, number) {
        Ok(()) => {}
        Err(refusal) => return Err(refusal),
    }
    paths.push(path)?;
    Ok(())
}

/// Opens a built-in header.
fn open_built_in(
    alloc: Global,
    unit: &mut Unit,
    names: &mut Names,
    paths: &mut Vec<Text>,
    header: BuiltIn,
) -> Result<(), Refusal>
    ensures stops { IfErr result Stops }
    ensures told { OnOk result ((held : Held) → IsToldUnit held unit.old → IsToldUnit held unit.new) }
    ensures exact { (held : Held) → Comes (λ _. reached held unit.new names.new paths.new.items) (Units.entering unit.old.included.is_char_signed (Source.built_in header) (reached held unit.old names.old paths.old.items)) result }
    ensures signed { unit.new.included.is_char_signed ≡ unit.old.included.is_char_signed }
{
    let path = Text::copy_of(alloc, header.path())?;
    let bytes = unit.built_in(header)?;
    match FileText::whole(alloc, paths.len() as u64, &bytes) {
        Ok(text) => open(unit, names, paths, path, text),
        Err(refusal) => Err(refusal),
    }
}

/// Opens a file that was found, which begins with these bytes and is missing by this name.
fn open_found(
    alloc: Global,
    unit: &mut Unit,
    names: &mut Names,
    paths: &mut Vec<Text>,
    path: Text,
    first: &[u8],
    name: Text,
) -> Result<(), Refusal>
    requires { length first.now ≤ 4096 }
    ensures stops { IfErr result Stops }
    ensures told { OnOk result ((held : Held) (bytes : List ℕ) → held path ≡ Some bytes → Begins (Some bytes) first.now → IsToldUnit held unit.old → IsToldUnit held unit.new) }
    ensures exact { (held : Held) (bytes : List ℕ) → held path ≡ Some bytes → Begins (Some bytes) first.now → Comes (λ _. reached held unit.new names.new paths.new.items) (Units.opening_file path bytes (reached held unit.old names.old paths.old.items)) result }
    ensures signed { unit.new.included.is_char_signed ≡ unit.old.included.is_char_signed }
{
    let read_from = path.copy(alloc)?;
    match FileText::begin(alloc, paths.len() as u64, read_from, name, first) {
        Ok(text) => open(unit, names, paths, path, text),
        Err(refusal) => Err(refusal),
    }
}

/// Opens a file that was found.
fn enter(
    alloc: Global,
    unit: &mut Unit,
    names: &mut Names,
    paths: &mut Vec<Text>,
    found: Found,
) -> Result<(), Refusal>
    requires { IsShort found }
    ensures stops { IfErr result Stops }
    ensures told { OnOk result ((held : Held) (source : Source) → IsThere (Some held) found → IsFor held found source → IsToldUnit held unit.old → IsToldUnit held unit.new) }
    ensures exact { (held : Held) (source : Source) → IsThere (Some held) found → IsFor held found source → Comes (λ _. reached held unit.new names.new paths.new.items) (Units.with_room unit.old.included.is_char_signed source (reached held unit.old names.old paths.old.items)) result }
    ensures signed { unit.new.included.is_char_signed ≡ unit.old.included.is_char_signed }
{
    if !unit.has_room() {
        return Err(Refusal::TooLarge {
            limit: Size::Includes,
            value: Size::Includes.number() + 1,
        });
    }
    match found {
        Found::File(path, first, name) => {
            open_found(alloc, unit, names, paths, path, &first, name)
        }
        Found::BuiltIn(header) => open_built_in(alloc, unit, names, paths, header),
    }
}

/// The path of the file of a number.
fn path_at(paths: &[Text], number: u64) -> &[u8]
    ensures { result.now ≡ Finding.path_at paths.now number }
{
    match paths.get(number as usize) {
        Some(path) => path.as_slice(),
        None => &[],
    }
}

/// Includes a header in a file by its number.
fn include<F: Files>(
    alloc: Global,
    files: &mut F,
    folders: &[Text],
    unit: &mut Unit,
    names: &mut Names,
    paths: &mut Vec<Text>,
    header: Header,
    number: u64,
) -> Result<(), Refusal>
    ensures serves { Serves folders.now (outside (F.contents files.old) (F.write_faults files.old) (F.faults files.old) (F.misses files.old))
        (outside (F.contents files.new) (F.write_faults files.new) (F.faults files.new) (F.misses files.new)) result }
    ensures includes { Includes (F.contents files.old) (Finding.path_at paths.old.items number) folders.now header result }
    ensures told { OnOk result ((held : Held) → F.contents files.old ≡ Some held → IsToldUnit held unit.old → IsToldUnit held unit.new) }
    ensures exact { (held : Held) → F.contents files.old ≡ Some held → Comes (λ _. reached held unit.new names.new paths.new.items) (Units.including (around held folders.now unit.old.included.is_char_signed) header number (reached held unit.old names.old paths.old.items)) result }
    ensures signed { unit.new.included.is_char_signed ≡ unit.old.included.is_char_signed }
{
    match seek(alloc, files, folders, path_at(paths, number), header) {
        Ok(found) => enter(alloc, unit, names, paths, found),
        Err(refusal) => Err(refusal),
    }
}

/// Reads a line of a unit, and opens what it includes. Whether the unit goes on.
fn read_line<F: Files>(
    alloc: Global,
    files: &mut F,
    folders: &[Text],
    unit: &mut Unit,
    names: &mut Names,
    paths: &mut Vec<Text>,
) -> Result<bool, Refusal>
    ensures serves { Serves folders.now (outside (F.contents files.old) (F.write_faults files.old) (F.faults files.old) (F.misses files.old))
        (outside (F.contents files.new) (F.write_faults files.new) (F.faults files.new) (F.misses files.new)) result }
    ensures misses { AreToldWhere (F.contents files.old) unit.old → Misses (F.contents files.old) folders.now result }
    ensures told { OnOk result ((held : Held) → F.contents files.old ≡ Some held → IsToldUnit held unit.old → IsToldUnit held unit.new) }
    ensures exact { (held : Held) → F.contents files.old ≡ Some held → IsToldUnit held unit.old → Steps (around held folders.now unit.old.included.is_char_signed) (reached held unit.old names.old paths.old.items) (reached held unit.new names.new paths.new.items) result }
    ensures signed { unit.new.included.is_char_signed ≡ unit.old.included.is_char_signed }
{
    match unit.advance(files, folders, names) {
        Ok(Event::Line) => Ok(true),
        Ok(Event::Include(header, number)) => {
            match include(alloc, files, folders, unit, names, paths, header, number) {
                Ok(()) => Ok(true),
                Err(refusal) => Err(refusal),
            }
        }
        Ok(Event::End) => Ok(false),
        Err(refusal) => Err(refusal),
    }
}

/// Reads all lines of a unit whose first file is open.
fn read_lines<F: Files>(
    alloc: Global,
    files: &mut F,
    folders: &[Text],
    unit: Unit,
    names: &mut Names,
    paths: &mut Vec<Text>,
) -> Result<PpTokens, Refusal>
    ensures serves { Serves folders.now (outside (F.contents files.old) (F.write_faults files.old) (F.faults files.old) (F.misses files.old))
        (outside (F.contents files.new) (F.write_faults files.new) (F.faults files.new) (F.misses files.new)) result }
    ensures misses { AreToldWhere (F.contents files.old) unit → Misses (F.contents files.old) folders.now result }
    ensures exact { (held : Held) → F.contents files.old ≡ Some held → IsToldUnit held unit → ComesAt paths.new.items (λ tokens. (unit_of tokens paths.new.items, names.new)) (Units.rest (around held folders.now unit.included.is_char_signed) (reached held unit names.old paths.old.items)) result }
{
    let mut unit = unit;
    for _ in 0..u64::MAX {
        match read_line(alloc, files, folders, &mut unit, names, paths) {
            Ok(is_more) => {
                if !is_more {
                    return Ok(unit.into_tokens());
                }
            }
            Err(refusal) => return Err(refusal),
        }
    }
    Err(Refusal::OutOfMemory)
}

/// Adds a path to a unit's list.
fn add_path(alloc: Global, paths: &mut Vec<Text>, path: &Text) -> Result<(), Refusal>
    ensures refused { IfErr result (λ e. e ≡ OutOfMemory) }
    ensures added { OnOk result (paths.new.items ≡ paths.old.items ++ path.now ∷ []) }
{
    let listed = path.copy(alloc)?;
    paths.push(listed)?;
    Ok(())
}

/// Opens the first file of a unit, which begins with these bytes.
fn begin(
    alloc: Global,
    options: &Options,
    macros: Macros,
    names: &mut Names,
    paths: &mut Vec<Text>,
    path: &Text,
    first: &[u8],
) -> Result<Unit, Refusal>
    requires { length first.now ≤ 4096 }
    ensures stops { IfErr result Stops }
    ensures told { IfOk result (λ u. (held : Held) (bytes : List ℕ) → held path.now ≡ Some bytes → Begins (Some bytes) first.now → IsToldUnit held u) }
    ensures exact { (held : Held) (bytes : List ℕ) → held path.now ≡ Some bytes → Begins (Some bytes) first.now → Comes (λ u. reached held u names.new paths.new.items) (Units.first_reached paths.old.items macros path.now bytes names.old) result }
    ensures signed { IfOk result (λ u. u.included.is_char_signed ≡ options.now.signed_chars) }
{
    let read_from = path.copy(alloc)?;
    let name = path.copy(alloc)?;
    let text = match FileText::begin(alloc, 0, read_from, name, first) {
        Ok(text) => text,
        Err(refusal) => return Err(refusal),
    };
    let unit = match Unit::begin(alloc, options, macros, names, path.as_slice(), text) {
        Ok(unit) => unit,
        Err(refusal) => return Err(refusal),
    };
    match add_path(alloc, paths, path) {
        Ok(()) => Ok(unit),
        Err(refusal) => Err(refusal),
    }
}

/// Reads a unit from its first file on.
fn read_unit<F: Files>(
    alloc: Global,
    files: &mut F,
    options: &Options,
    folders: &[Text],
    path: &Text,
    macros: Macros,
    names: &mut Names,
    paths: &mut Vec<Text>,
) -> Result<PpTokens, Refusal>
    ensures serves { Serves folders.now (outside (F.contents files.old) (F.write_faults files.old) (F.faults files.old) (F.misses files.old))
        (outside (F.contents files.new) (F.write_faults files.new) (F.faults files.new) (F.misses files.new)) result }
    ensures misses { MissesInUnit (F.contents files.old) folders.now path.now result }
    ensures exact { (held : Held) → F.contents files.old ≡ Some held → paths.old.items ≡ [] → ComesAt paths.new.items (λ tokens. (unit_of tokens paths.new.items, names.new)) (Units.unit_read (around held folders.now options.now.signed_chars) path.now macros names.old) result }
{
    let first = match begin_main(alloc, files, folders, path) {
        Ok(first) => first,
        Err(refusal) => return Err(refusal),
    };
    match begin(alloc, options, macros, names, paths, path, &first) {
        Ok(unit) => read_lines(alloc, files, folders, unit, names, paths),
        Err(refusal) => Err(refusal),
    }
}

/// The path of a number in a unit's list.
fn path_of(alloc: Global, paths: Vec<Text>, number: u64) -> Text
    ensures { result ≡ Finding.path_at paths.items number }
{
    let mut paths = paths;
    if number < paths.len() as u64 {
        paths.swap_remove(number as usize)
    } else {
        Text::from_vec(Vec::new(alloc))
    }
}

/// A refusal with its file's path in the place of its number.
fn located(alloc: Global, refusal: Refusal, paths: Vec<Text>) -> Refusal
    requires { StopsReading refusal }
    ensures refused { StopsUnit result }
    ensures same { Relocates refusal result }
    ensures exact { result ≡ Units.located paths.items refusal }
{
    match refusal {
        Refusal::At { code, pos } => Refusal::Source {
            code,
            file: path_of(alloc, paths, pos.file),
            line: pos.line,
        },
        other => other,
    }
}

/// The preprocessing tokens of a file with all that it includes (C90 5.1.1.2, phases 1 to 4). The definitions stand before its
/// first line; headers are sought in the folders.
///
/// The definitions and the texts are refused at their first fault: the one that the least front of what was read decides.
pub fn preprocess<F: Files>(
    alloc: Global,
    files: &mut F,
    options: &Options,
    defines: &[Define],
    folders: &[Text],
    path: &Text,
    names: &mut Names,
) -> Result<PpUnit, Refusal>
    ensures refused { IfErr result StopsUnit }
    ensures read { FaultCause (F.faults files.old) (F.faults files.new) result }
    ensures missing { MissCause folders.now (F.misses files.old) (F.misses files.new) result }
    ensures sought { MissesInUnit (F.contents files.old) folders.now path.now result }
    ensures exact { (held : Held) → F.contents files.old ≡ Some held → Comes (λ unit. (unit, names.new)) (Units.preprocessed held options.now defines.now folders.now path.now names.old) result }
    ensures same { F.contents files.new ≡ F.contents files.old }
    ensures writes { F.write_faults files.new ≡ F.write_faults files.old }
{
    let macros = match begin_macros(alloc, options, defines, names) {
        Ok(macros) => macros,
        Err(refusal) => return Err(refusal),
    };
    let mut paths = Vec::new(alloc);
    match read_unit(
        alloc, files, options, folders, path, macros, names, &mut paths,
    ) {
        Ok(tokens) => Ok(PpUnit {
            tokens,
            files: Paths::from_vec(paths),
        }),
        Err(refusal) => Err(located(alloc, refusal, paths)),
    }
}

/// The predefined macros and those of the command line.
fn begin_macros(
    alloc: Global,
    options: &Options,
    defines: &[Define],
    names: &mut Names,
) -> Result<Macros, Refusal>
    ensures stops { IfErr result StopsCommand }
    ensures exact { Comes (λ m. (m, names.new)) (Units.macros options.now defines.now names.old) result }
{
    let mut macros = match Macros::new(alloc, options, names) {
        Ok(macros) => macros,
        Err(refusal) => return Err(refusal),
    };
    match define_all(alloc, &mut macros, names, defines) {
        Ok(()) => Ok(macros),
        Err(refusal) => Err(refusal),
    }
}
