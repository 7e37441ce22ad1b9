// Stack certificates of programs.
ghost use Rattle.std.specs.Prelude.{◌≡◌, IfOk, IfErr, option_map};
ghost use Rattle.c65_base.specs.declared.refusal.Refusal.TheVariants as refusals;
ghost use Rattle.c65_csem.specs.Views.{unit_of};
ghost use Rattle.c65_depth.specs.Numbers.{rows, row_by, has_row, unbounded_of, certificate_of};
ghost use Rattle.c65_depth.specs.Checks.{is_checked};

use crate::checks::{are_met, given_all};
use crate::facts::{Facts, cost_at, first_bytes, graph};
use crate::numbers::{Numbers, all_numbers, costs, numbers_at};
use crate::reached::{NUMBERS, Standing, first_unbounded, reachable_at, standings};
use c65_base::Refusal;
use c65_csem::{Parts, TProgram};
use std::alloc::{AllocError, Global};

/// The numbers of a function: how many bytes it and those that it calls take of the software stack at most,
/// and of the hard stack.
#[derive(Clone, Copy, Debug, PartialEq, Eq)]
pub struct CertRow {
    pub func: u32,
    pub soft: u64,
    pub hard: u64,
}

/// A certificate. The numbers of a function are those of its first row.
#[derive(Debug, Drop)]
pub struct Cert {
    pub rows: Vec<CertRow>,
}

fn has_row(graph: &[Facts], standings: &[Standing], func: usize) -> bool
    ensures { result ≡ has_row graph.now standings.now func }
{
    func < NUMBERS && reachable_at(standings, func) && cost_at(graph, func).is_some()
}

fn row_by(func: u32, numbers: Numbers) -> CertRow
    ensures { result ≡ row_by func numbers }
{
    CertRow {
        func,
        soft: numbers.soft,
        hard: numbers.hard,
    }
}

fn rows(
    alloc: Global,
    graph: &[Facts],
    standings: &[Standing],
    all: &[Numbers],
) -> Result<Vec<CertRow>, AllocError>
    ensures { IfOk result (λ made. made.items ≡ rows graph.now standings.now all.now) }
{
    let mut rows = Vec::new(alloc);
    for func in 0..graph.len() {
        if func < NUMBERS && has_row(graph, standings, func) {
            rows.push(row_by(func as u32, numbers_at(all, func)))?;
        }
    }
    Ok(rows)
}

fn certified(alloc: Global, parts: &Parts, main: u32) -> Result<Option<Cert>, AllocError>
    ensures { IfOk result (λ made. option_map (λ c. c.rows.items) made ≡ certificate_of (unit_of parts.now) main) }
{
    let graph = graph(alloc, parts)?;
    let standings = standings(alloc, &graph, main as usize)?;
    if first_unbounded(&graph, &standings).is_some() {
        return Ok(None);
    }
    let first = first_bytes(parts, main);
    let costs = costs(alloc, &graph, &standings, main as usize, first)?;
    let all = all_numbers(alloc, &graph, &costs)?;
    let rows = rows(alloc, &graph, &standings, &all)?;
    Ok(Some(Cert { rows }))
}

fn unbounded_in(alloc: Global, parts: &Parts, main: u32) -> Result<Option<u32>, AllocError>
    ensures { IfOk result (λ found. found ≡ unbounded_of (unit_of parts.now) main) }
{
    let graph = graph(alloc, parts)?;
    let standings = standings(alloc, &graph, main as usize)?;
    Ok(first_unbounded(&graph, &standings))
}

fn is_checked(
    alloc: Global,
    parts: &Parts,
    main: u32,
    cert: &Cert,
    args: u32,
) -> Result<bool, AllocError>
    ensures { IfOk result (λ so. so ≡ is_checked (unit_of parts.now) main cert.now.rows.items args) }
{
    let graph = graph(alloc, parts)?;
    let standings = standings(alloc, &graph, main as usize)?;
    let first = first_bytes(parts, main);
    let costs = costs(alloc, &graph, &standings, main as usize, first)?;
    let given = given_all(alloc, &graph, &cert.rows)?;
    Ok(are_met(&graph, &costs, &standings, &given, main as usize, args))
}

/// The least certificate of a program, with one row for each function with a body that can be called from
/// `main`, in their order. None where such a function lies on a call cycle or calls through a pointer.
/// Refuses for memory alone. A number above 2^64 - 1 stands as that, a need above 2^32 - 1 counts as that.
pub fn certify(alloc: Global, program: &TProgram) -> Result<Option<Cert>, Refusal>
    ensures made { IfOk result (λ made. option_map (λ c. c.rows.items) made ≡ certificate_of (unit_of program.now.0) program.now.1) }
    ensures refused { IfErr result (λ e. e ≡ refusals.OutOfMemory) }
{
    let made = certified(alloc, program.unit().parts(), program.main())?;
    Ok(made)
}

/// The first function that can be called from `main` and lies on a call cycle or calls through a pointer.
/// None exactly where `certify` gives a certificate. Refuses for memory alone.
pub fn unbounded(alloc: Global, program: &TProgram) -> Result<Option<u32>, Refusal>
    ensures found { IfOk result (λ found. found ≡ unbounded_of (unit_of program.now.0) program.now.1) }
    ensures refused { IfErr result (λ e. e ≡ refusals.OutOfMemory) }
{
    let found = unbounded_in(alloc, program.unit().parts(), program.main())?;
    Ok(found)
}

/// Whether a certificate covers each function that can be called from `main`, and the program then fits
/// on both stacks with so many bytes of arguments. Refuses for memory alone.
pub fn check(alloc: Global, program: &TProgram, cert: &Cert, args: u32) -> Result<bool, Refusal>
    ensures checked { IfOk result (λ so. so ≡ is_checked (unit_of program.now.0) program.now.1 cert.now.rows.items args) }
    ensures refused { IfErr result (λ e. e ≡ refusals.OutOfMemory) }
{
    let so = is_checked(alloc, program.unit().parts(), program.main(), cert, args)?;
    Ok(so)
}
