// Seven cases of the ordering: each is built by the edits of a graph and ordered, and what was found is printed.
// With the argument M1 only the two lists of the first case are.
#![tactic(auto)]

mod build;

use build::{add_edges, add_nodes, begin, mark_breakers, order};
use layout::field::Number;
use layout::index::Below;
use layout::{IDS, STATE, Words};
use std::{env, io};

// The order, or the bare word.
fn print_order(rt: &impl Print, state: &Words) -> io::Result<()> {
    print!(rt; "order")?;
    for index in 0..Number::OrderLength.get(state).min(IDS) {
        print!(rt; " {}", Number::Order(Below { index }).get(state))?;
    }
    println!(rt; "")
}

// The muted list, or the bare word.
fn print_muted(rt: &impl Print, state: &Words) -> io::Result<()> {
    print!(rt; "muted")?;
    for index in 0..Number::MutedLength.get(state).min(IDS) {
        print!(rt; " {}", Number::Muted(Below { index }).get(state))?;
    }
    println!(rt; "")
}

/// A case: how many nodes there are, which of them are breakers, and the edges in stored order.
#[derive(Clone, Copy)]
struct Case<'a> {
    nodes: usize,
    breakers: &'a [u8],
    edges: &'a [(u8, u8)],
}

// Builds a case, orders it and prints the two lists; the answer is how many passes there were.
fn show(rt: &impl Print, case: Case) -> io::Result<usize> {
    let mut state = [0; STATE];
    begin(&mut state);
    add_nodes(&mut state, case.nodes.min(IDS));
    mark_breakers(&mut state, case.breakers);
    add_edges(&mut state, case.edges);
    let passes = order(&mut state);
    print_order(rt, &state)?;
    print_muted(rt, &state)?;
    Ok(passes)
}

// Shows a case under its name, with its passes.
fn report(rt: &impl Print, name: &str, case: Case) -> io::Result<()> {
    println!(rt; "{name}")?;
    let passes = show(rt, case)?;
    println!(rt; "passes {passes}")
}

fn main(rt: HostRuntime) -> io::Result<()> {
    let first = Case {
        nodes: 5,
        breakers: &[],
        edges: &[(1, 2), (1, 4), (2, 3), (3, 1), (4, 3)],
    };
    for arg in env::args(&rt)? {
        if arg.as_str() == "M1" {
            show(&rt, first)?;
            return Ok(());
        }
    }
    report(&rt, "M1", first)?;
    report(
        &rt,
        "M2",
        Case {
            nodes: 5,
            breakers: &[],
            edges: &[(1, 4), (1, 2), (2, 3), (3, 1), (4, 3)],
        },
    )?;
    report(
        &rt,
        "M3",
        Case {
            nodes: 3,
            breakers: &[2],
            edges: &[(1, 2), (1, 0), (2, 1)],
        },
    )?;
    report(
        &rt,
        "M4",
        Case {
            nodes: 4,
            breakers: &[2, 3],
            edges: &[(1, 2), (2, 3), (3, 1)],
        },
    )?;
    report(
        &rt,
        "M5",
        Case {
            nodes: 2,
            breakers: &[],
            edges: &[(1, 1)],
        },
    )?;
    report(
        &rt,
        "M6",
        Case {
            nodes: 2,
            breakers: &[1],
            edges: &[(1, 1)],
        },
    )?;
    report(
        &rt,
        "M7",
        Case {
            nodes: 3,
            breakers: &[],
            edges: &[],
        },
    )
}
