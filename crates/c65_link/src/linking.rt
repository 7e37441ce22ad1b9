// From a code to its image.
ghost use Rattle.std.specs.Prelude.{◌≡◌, IfOk};
ghost use Rattle.c65_link.specs.Symbols.{targets_of, main_in, missing_of};
ghost use Rattle.c65_link.specs.Layouts.{layout_of};
ghost use Rattle.c65_link.specs.Linked.{entry_of, parts_of, main_address, payload_by, payload_of, fitted, placed, linked, linked_for, Gives};

use crate::bytes::{Tables, Written, put_data};
use crate::layout::Layout;
use crate::missing::first_missing;
use crate::symbols::{Target, main_symbol, targets};
use crate::uses::{Chosen, Part};
use c65_base::{Cpu, LinkKind, Refusal, Size, Text};
use c65_code::{Code, Routine};
use c65_mach::Image;
use std::alloc::{AllocError, Global};

fn entry(code: &Code) -> Routine
    ensures { result ≡ entry_of code.now }
{
    if code.main_args {
        Routine::StartArgs
    } else {
        Routine::Start
    }
}

fn entry_part(alloc: Global, code: &Code) -> Result<Part, AllocError>
    ensures { IfOk result (λ part. part ≡ entry_of code.now) }
{
    if code.main_args {
        Part::of(alloc, Routine::StartArgs)
    } else {
        Part::of(alloc, Routine::Start)
    }
}

// The routines that are used, directly or by others.
fn used(alloc: Global, code: &Code, targets: &[Target], entry: &Part) -> Result<Chosen, AllocError>
    requires { entry.now ≡ entry_of code.now }
    ensures { IfOk result (λ chosen. chosen.parts ≡ parts_of code.now targets.now) }
{
    let mut chosen = Chosen::new(alloc);
    chosen.mark_calls(entry.lines());
    chosen.mark_code(code, targets);
    chosen.close(alloc)?;
    Ok(chosen)
}

fn main_at(code: &Code, layout: &Layout) -> u16
    ensures { result ≡ main_address code.now layout.now }
{
    let at = main_symbol(code.symbols.as_slice()).unwrap_or(0);
    match layout.symbols().get(at) {
        Some(address) => *address,
        None => 0,
    }
}

fn payload_with(
    alloc: Global,
    code: &Code,
    tables: &Tables<'_>,
    routine_tables: &Tables<'_>,
    entry: &Part,
    parts: &[Part],
) -> Result<Vec<u8>, AllocError>
    ensures { IfOk result (λ bytes. bytes.items ≡ payload_by code.now tables.now routine_tables.now entry.now parts.now) }
{
    let mut written = Written {
        bytes: Vec::new(alloc),
        at: 512,
    };
    written.put_lines(alloc, routine_tables, entry.lines())?;
    written.put_functions(alloc, tables, code.functions.as_slice())?;
    written.put_routines(alloc, routine_tables, parts)?;
    let Written { mut bytes, .. } = written;
    put_data(&mut bytes, tables.symbols, code.datums.as_slice())?;
    Ok(bytes)
}

// In the lines of routines symbol 0 is main.
fn payload(
    alloc: Global,
    code: &Code,
    layout: &Layout,
    entry: &Part,
    parts: &[Part],
) -> Result<Vec<u8>, AllocError>
    ensures { IfOk result (λ bytes. bytes.items ≡ payload_of code.now layout.now entry.now parts.now) }
{
    let main = [main_at(code, layout)];
    let tables = Tables {
        symbols: layout.symbols(),
        routines: layout.routines(),
    };
    let routine_tables = Tables {
        symbols: &main,
        routines: layout.routines(),
    };
    payload_with(alloc, code, &tables, &routine_tables, entry, parts)
}

fn fit(
    alloc: Global,
    code: &Code,
    entry: &Part,
    parts: &[Part],
    layout: &Layout,
) -> Result<Image, Refusal>
    ensures { Gives result (fitted code.now entry.now parts.now layout.now) }
{
    let value = layout.at().saturating_sub(512);
    if value > Size::Image.number() {
        return Err(Refusal::TooLarge {
            limit: Size::Image,
            value,
        });
    }
    let payload = payload(alloc, code, layout, entry, parts)?;
    Ok(Image {
        cpu: Cpu::Nmos,
        sp: 0,
        load: 512,
        reset: 512,
        payload: Text::from_vec(payload),
    })
}

fn place(alloc: Global, code: &Code, targets: &[Target]) -> Result<Image, Refusal>
    ensures { Gives result (placed code.now targets.now (parts_of code.now targets.now)) }
{
    let entry = entry_part(alloc, code)?;
    let chosen = used(alloc, code, targets, &entry)?;
    let layout = Layout::of(alloc, code, targets, &entry, chosen.parts())?;
    fit(alloc, code, &entry, chosen.parts(), &layout)
}

/// The image of a code for the 6502: the start, its functions and the routines that are used, then its data, from $0200 on; zero
/// data follow behind the file. A symbol `_NAME` of a library function without a body is the routine.
///
/// It refuses `Link` with `Undefined` at the first used symbol without a body, where the start uses main, then
/// `TooLarge` with `Image` where code, data and zero data together pass 62,960 bytes, and else for want of memory alone.
pub fn link(alloc: Global, code: &Code) -> Result<Image, Refusal>
    ensures { Gives result (linked code.now) }
{
    let targets = targets(alloc, code)?;
    let main = main_symbol(code.symbols.as_slice());
    if let Some(name) = first_missing(alloc, code, &targets, main)? {
        return Err(Refusal::Link {
            kind: LinkKind::Undefined,
            name,
        });
    }
    place(alloc, code, &targets)
}

/// The image of a code for a processor: that of `link`, which names this processor. It refuses as `link` does. Where the
/// code's lines have rows that the 65C02 adds, they are rows of an image for the 65C02 alone.
pub fn link_for(alloc: Global, code: &Code, cpu: Cpu) -> Result<Image, Refusal>
    ensures { Gives result (linked_for cpu code.now) }
{
    let mut image = link(alloc, code)?;
    image.cpu = cpu;
    Ok(image)
}
