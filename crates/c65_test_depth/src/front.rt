// From a text to its program.
use c65_base::{Names, Options, Refusal, Text};
use c65_csem::TProgram;
use c65_decl::parse_unit;
use c65_init::elab_unit;
use c65_init_join::join;
use c65_io::mem_files;
use c65_ppdir::preprocess;
use c65_scan::scan;
use std::alloc::Global;

/// The program of one text, with the names that it uses.
pub fn program_of(alloc: Global, text: &[u8]) -> Result<(TProgram, Names), Refusal> {
    let mut names = Names::new(alloc);
    let rest = names.intern(b"__va_rest")?;
    let mut files = mem_files(alloc, Vec::new(alloc));
    files.put(
        Vec::from_slice(alloc, b"a.c")?,
        Vec::from_slice(alloc, text)?,
    )?;
    let path = Text::copy_of(alloc, b"a.c")?;
    let options = Options::none();
    let unit = preprocess(alloc, &mut files, &options, &[], &[], &path, &mut names)?;
    let tokens = scan(alloc, &unit, &names)?;
    let tree = parse_unit(alloc, tokens.as_slice())?;
    let typed = elab_unit(alloc, &tree, &options, rest)?;
    let mut units = Vec::new(alloc);
    units.push(typed)?;
    let program = join(alloc, units, &names)?;
    Ok((program, names))
}
