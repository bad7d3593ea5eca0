//! Runs a recipe on the path sheet: reads the recipe from standard input, drops one final newline, and prints the vertex weights on
//! one line and the edge weights on the next; or one line, `refused NUMBER PLACE`.

#![tactic(auto)]

use buffers::{Buffers, Line};
use graph::{Edge, Graph, judge};
use lattice::Level;
use path_sheet::{VERTICES, edge_records, edges, vertex_records};
use recipe::Recipe;
use refusal::Refusal;
use sheet::Sheet;
use std::io::Read;

/// One byte more than the longest recipe with its newline: what is longer is refused whatever follows.
const LONGEST_INPUT: u64 = 4098;

/// The text of the recipe, without one final newline.
fn read_text(rt: &HostRuntime) -> anyhow::Result<Vec<u8>> {
    let mut text = Vec::new(rt.alloc());
    rt.stdin().take(LONGEST_INPUT).read_to_end(&mut text)?;
    if text.last().copied() == Some(b'\n') {
        let _ = text.pop();
    }
    Ok(text)
}

/// Opens the path sheet and runs the recipe on it.
fn run(
    table: &[Edge],
    text: &[u8],
    weights: &mut Buffers<Level>,
    scratch: &mut Buffers<Level>,
    held: &mut Buffers<Level>,
) -> Result<(), Refusal> {
    let mut graph = Graph::empty();
    judge(&mut graph, VERTICES, table)?;
    let sheet = Sheet::open(&graph, &vertex_records(), edge_records(), weights.lend())?;
    let mut place = Recipe::empty();
    sheet.run(
        text,
        &mut place,
        weights.lend(),
        scratch.lend(),
        held.lend(),
    )
}

/// Prints the weights after the recipe, or its refusal.
fn show(rt: &HostRuntime, table: &[Edge], text: &[u8]) -> anyhow::Result<()> {
    let heap = rt.alloc();
    let mut weights = Buffers::lowest(heap, VERTICES, table.len())?;
    let mut scratch = Buffers::lowest(heap, VERTICES, table.len())?;
    let mut held = Buffers::lowest(heap, VERTICES, table.len())?;
    match run(table, text, &mut weights, &mut scratch, &mut held) {
        Ok(()) => {
            let vertices = Line(weights.vertices.as_slice());
            let edges = Line(weights.edges.as_slice());
            println!(rt; "{vertices}")?;
            println!(rt; "{edges}")?;
        }
        Err(refusal) => {
            let number = refusal.number();
            let place = refusal.place();
            println!(rt; "refused {number} {place}")?;
        }
    }
    Ok(())
}

fn main(rt: HostRuntime) -> anyhow::Result<()> {
    let text = read_text(&rt)?;
    show(&rt, &edges(), &text)
}
