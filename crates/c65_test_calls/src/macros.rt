// Options, lines, files, removals and places of macros.
use crate::expansions::{define, lex, shown};
use crate::texts::text_of;
use c65_base::{Names, Options, Refusal};
use c65_lex::PpToken;
use c65_macro::Macros;
use std::alloc::Global;

/// The text's expansion where the optimiser and register variables are on, and that of its first two tokens once the
/// lines are three less and the file has another name.
fn options_and_lines(alloc: Global, text: &[u8]) -> Result<(Vec<u8>, Vec<u8>), Refusal> {
    let mut names = Names::new(alloc);
    let options = Options {
        optimise: true,
        register_vars: true,
        ..Options::none()
    };
    let mut macros = Macros::new(alloc, &options, &mut names)?;
    define(alloc, &mut macros, &mut names, b"here(a) a __LINE__")?;
    let line = lex(alloc, &mut names, text, 10)?;
    let first = macros.expand(&line, &mut names)?;
    let file = names.intern(b"\"b.c\"")?;
    macros.set_line(file, -3);
    let second = macros.expand(line.get(..2).unwrap_or(&[]), &mut names)?;
    Ok((
        shown(alloc, &names, &first)?,
        shown(alloc, &names, &second)?,
    ))
}

/// Which of these hold: a predefined name is there to be removed, and stays; a defined one is there once.
fn removals(alloc: Global) -> Result<[bool; 4], Refusal> {
    let mut names = Names::new(alloc);
    let mut macros = Macros::new(alloc, &Options::none(), &mut names)?;
    define(alloc, &mut macros, &mut names, b"here 1")?;
    let stdc = names.intern(b"__STDC__")?;
    let here = names.intern(b"here")?;
    let was_predefined = macros.undef(stdc) && macros.is_predefined(stdc);
    let stays = macros.get(stdc).is_some();
    let was_there = macros.undef(here);
    let gone = !macros.undef(here) && macros.get(here).is_none();
    Ok([was_predefined, stays, was_there, gone])
}

/// The tokens of a use that goes over several lines.
fn spread(alloc: Global) -> Result<Vec<PpToken>, Refusal> {
    let mut names = Names::new(alloc);
    let mut macros = Macros::new(alloc, &Options::none(), &mut names)?;
    define(alloc, &mut macros, &mut names, b"f(a) [a # a]")?;
    let line = lex(alloc, &mut names, b"x\n f(\ny\nz)", 10)?;
    macros.expand(&line, &mut names)
}

pub fn show_macros(rt: &HostRuntime) -> Result<(), anyhow::Error> {
    let alloc = rt.alloc();
    let text =
        b"__LINE__ __FILE__\nhere(\n__LINE__)\n__OPT__ __OPT_r__ __OPT_i__ __DATE__ __TIME__ __CC65__";
    let (first, second) = options_and_lines(alloc, text)?;
    println!(rt; "= lines, files and options")?;
    println!(rt; "{}", text_of(alloc, &first)?)?;
    println!(rt; "{}", text_of(alloc, &second)?)?;
    println!(rt; "= removals")?;
    println!(rt; "{:?}", removals(alloc)?)?;
    println!(rt; "= lines and white space of tokens")?;
    for token in spread(alloc)? {
        println!(rt; "{} {}", token.pos.line, token.space)?;
    }
    Ok(())
}
