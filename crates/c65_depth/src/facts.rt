// What certificates read of a program.
ghost use Rattle.std.specs.Prelude.{◌≡◌, IfOk};
ghost use Rattle.c65_csem.specs.Views.{func_of, unit_of};
ghost use Rattle.c65_depth.specs.Facts.{facts_in, graph_of, graph, first_bytes, body_cost, facts_of, calls_at, cost_at};
ghost use Rattle.c65_csem.specs.Views.{stmt_of};

use crate::calls::{Call, Calls, add_calls};
use crate::sizes::{bytes_of_objects, local_bytes};
use c65_csem::{Parts, TFunc, TStmt};
use c65_csem_need::greatest_need;
use std::alloc::{AllocError, Global};

/// A function: what an active call costs on the software stack beside the bytes that it is passed, none
/// without a body; and the calls of its body.
#[derive(Drop)]
pub struct Facts {
    pub cost: Option<u64>,
    pub calls: Calls,
}

/// The bytes of its own objects, six, and eight for each value that waits at once.
fn body_cost(parts: &Parts, body: &TStmt) -> u64
    ensures { result ≡ body_cost (unit_of parts.now) (stmt_of body.now) }
{
    let waiting = greatest_need(body) as u64 * 8;
    local_bytes(parts, body)
        .saturating_add(6)
        .saturating_add(waiting)
}

fn facts_in(alloc: Global, parts: &Parts, func: &TFunc) -> Result<Facts, AllocError>
    ensures { IfOk result (λ facts. facts ≡ facts_in (unit_of parts.now) (func_of func.now)) }
{
    let mut calls = Vec::new(alloc);
    let cost = match &func.body {
        Some(body) => {
            add_calls(parts, body, &mut calls)?;
            Some(body_cost(parts, body))
        }
        None => None,
    };
    Ok(Facts {
        cost,
        calls: Calls::from_vec(calls),
    })
}

/// The functions of a program in their order.
pub fn graph(alloc: Global, parts: &Parts) -> Result<Vec<Facts>, AllocError>
    ensures { IfOk result (λ g. g.items ≡ graph (unit_of parts.now)) }
{
    let mut graph = Vec::new(alloc);
    for func in &parts.funcs {
        graph.push(facts_in(alloc, parts, func)?)?;
    }
    Ok(graph)
}

/// The bytes of the parameters of the main function.
pub fn first_bytes(parts: &Parts, main: u32) -> u64
    ensures { result ≡ first_bytes (unit_of parts.now) main }
{
    match parts.funcs.get(main as usize) {
        Some(func) => bytes_of_objects(parts, &func.params),
        None => 0,
    }
}

pub fn calls_at(graph: &[Facts], func: usize) -> &[Call]
    ensures { result.now ≡ calls_at graph.now func }
{
    match graph.get(func) {
        Some(facts) => facts.calls.as_slice(),
        None => &[],
    }
}

pub fn cost_at(graph: &[Facts], func: usize) -> Option<u64>
    ensures { result ≡ cost_at graph.now func }
{
    match graph.get(func) {
        Some(facts) => facts.cost,
        None => None,
    }
}
