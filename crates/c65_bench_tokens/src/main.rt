//! Counts the tokens of a C file without directives, for measuring the lexer and the scanner:
//! `c65_bench_tokens FILE` prints how many preprocessing tokens, line ends included, and how many tokens it has.
#![tactic(auto)]

#[cfg(test)]
mod tests;

use c65_base::{Names, Refusal};
use c65_lex::{Lexer, Paths, PpTokens, PpUnit};
use c65_scan::scan;
use std::alloc::Global;
use std::{env, fs};

/// All preprocessing tokens of a text, as one unit.
fn read_unit(alloc: Global, text: Vec<u8>, names: &mut Names) -> Result<PpUnit, Refusal> {
    let mut lexer = Lexer::new(alloc, text, 0);
    let mut tokens = Vec::new(alloc);
    for _ in 0..u64::MAX {
        match lexer.next(names, false)? {
            Some(token) => tokens.push(token)?,
            None => break,
        }
    }
    Ok(PpUnit {
        tokens: PpTokens::from_vec(tokens),
        files: Paths::from_vec(Vec::new(alloc)),
    })
}

fn main(rt: HostRuntime) -> Result<(), anyhow::Error> {
    let alloc = rt.alloc();
    for path in env::args(&rt)?.skip(1) {
        let text = fs::read(&rt, path.as_str())?;
        let mut names = Names::new(alloc);
        let unit = read_unit(alloc, text, &mut names)?;
        let tokens = scan(alloc, &unit, &names)?;
        println!(rt;
            "{} {}",
            unit.tokens.as_slice().len(),
            tokens.as_slice().len()
        )?;
    }
    Ok(())
}
