//! The worked example, from files to figures: checks a graph file, opens a sheet of Levels on it, opens the weights by O1, prints
//! them, and prints where they reach 5.

#![tactic(auto)]

use buffers::{Buffers, Line};
use graph::{Edge, Graph, check_file, judge};
use lattice::{Level, Presence};
use path_sheet::edge_records;
use readings::LevelCut;
use recipe::Recipe;
use refusal::Refusal;
use sheet::Sheet;
use std::alloc::AllocError;
use std::{fmt, fs, io};

/// Why the example stops: a call refuses what it reads, or the system gives no file, memory or output.
#[derive(Drop)]
enum Stop {
    Refused(Refusal),
    Failed(anyhow::Error),
}

impl From<Refusal> for Stop {
    fn from(refusal: Refusal) -> Stop {
        Stop::Refused(refusal)
    }
}

impl From<AllocError> for Stop {
    fn from(error: AllocError) -> Stop {
        Stop::Failed(error.into())
    }
}

impl From<io::Error> for Stop {
    fn from(error: io::Error) -> Stop {
        Stop::Failed(error.into())
    }
}

/// Prints the weights of the vertices, and those of the edges.
fn print_weights<K: fmt::Display>(rt: &HostRuntime, weights: &Buffers<K>) -> io::Result<()> {
    let vertices = Line(weights.vertices.as_slice());
    let edges = Line(weights.edges.as_slice());
    println!(rt; "{vertices}")?;
    println!(rt; "{edges}")
}

/// Opens the sheet, filters it, and prints the weights and where they reach 5.
fn filter_and_print(rt: &HostRuntime, graph: &Graph, records: &[u8]) -> Result<(), Stop> {
    let heap = rt.alloc();
    let n = graph.order();
    let m = graph.edges().len();
    let mut weights = Buffers::lowest(heap, n, m)?;
    let mut scratch = Buffers::lowest(heap, n, m)?;
    let mut held = Buffers::lowest(heap, n, m)?;
    // Taken before anything is printed, so that want of memory leaves no half of an answer.
    let mut images = Buffers::<Presence>::lowest(heap, n, m)?;
    let sheet = Sheet::open(graph, records, edge_records(), weights.lend())?;
    let mut place = Recipe::empty();
    sheet.run(
        b"O1",
        &mut place,
        weights.lend(),
        scratch.lend(),
        held.lend(),
    )?;
    print_weights(rt, &weights)?;
    let cut = LevelCut::new(Level::new(5))?;
    sheet.read(&cut, weights.weights(), images.lend())?;
    print_weights(rt, &images)?;
    Ok(())
}

/// Checks the graph file, judges its edges and works on the graph.
fn run_example(rt: &HostRuntime) -> Result<(), Stop> {
    let file = fs::read(rt, "path.graph")?;
    let records = fs::read(rt, "path.levels")?;
    let n = records.len() / 2;
    let unset = Edge {
        first: 0,
        second: 0,
    };
    let mut table = vec![in rt.alloc(); unset; file.len() / 8]?;
    check_file(n, &file, &mut table)?;
    let mut graph = Graph::empty();
    judge(&mut graph, n, &table)?;
    filter_and_print(rt, &graph, &records)
}

fn main(rt: HostRuntime) -> anyhow::Result<()> {
    match run_example(&rt) {
        Ok(()) => Ok(()),
        Err(Stop::Refused(refusal)) => Ok(println!(rt; "{refusal}")?),
        Err(Stop::Failed(error)) => Err(error),
    }
}
