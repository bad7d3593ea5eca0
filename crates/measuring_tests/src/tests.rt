use buffers::Buffers;
use filters::{Family, Filter};
use graph::{Edge, Graph, judge};
use lattice::Level;
use measuring::{Mesh, checksum_levels, checksum_records, parse_filter, parse_mesh, parse_repeat};
use std::process::Abort;

// The cases are of one shape, each with its own values, and stand apart so that each can be read by itself.

// `edge` and `graph_of` stand in other test crates too. A crate for them would be a library, and each of its public functions
// would owe a contract and a must-fail edit, for three lines.

fn edge(first: u32, second: u32) -> Edge {
    Edge { first, second }
}

fn level(value: u16) -> Level {
    Level::new(value)
}

// The graph of these rows, which has to be accepted.
fn graph_of<'a>(rt: &impl Abort, n: usize, rows: &'a [Edge]) -> Graph<'a> {
    let mut graph = Graph::empty();
    assert!(rt; judge(&mut graph, n, rows).is_ok());
    graph
}

// The mesh that these words begin with, and how many words come after those of the mesh.
fn read_mesh(rt: &HostRuntime, words: &[&str]) -> anyhow::Result<(Mesh, usize)> {
    let heap = rt.alloc();
    let mut texts = Vec::new(heap);
    for word in words {
        texts.push(String::from_str(heap, word)?)?;
    }
    let (mesh, rest) = parse_mesh(texts.as_slice())?;
    Ok((mesh, rest.len()))
}

#[test]
fn edges_of_a_grid(rt: HostRuntime) -> anyhow::Result<()> {
    let (mesh, rest) = read_mesh(&rt, &["grid", "3", "2", "O", "10", "3"])?;
    assert_eq!(rt; rest, 3);
    assert_eq!(rt; mesh.order(), 6);
    let table = mesh.edges(rt.alloc())?;
    let rows = [
        edge(0, 1),
        edge(0, 3),
        edge(1, 2),
        edge(1, 4),
        edge(2, 5),
        edge(3, 4),
        edge(4, 5),
    ];
    assert_eq!(rt; table.as_slice(), rows.as_slice());
    Ok(())
}

#[test]
fn edges_of_a_random_mesh(rt: HostRuntime) -> anyhow::Result<()> {
    let (mesh, rest) = read_mesh(&rt, &["random", "5", "4", "7"])?;
    assert_eq!(rt; rest, 0);
    assert_eq!(rt; mesh.order(), 5);
    let table = mesh.edges(rt.alloc())?;
    let rows = [edge(0, 1), edge(0, 4), edge(1, 3), edge(1, 4)];
    assert_eq!(rt; table.as_slice(), rows.as_slice());
    Ok(())
}

#[test]
fn starting_weights(rt: HostRuntime) -> anyhow::Result<()> {
    let rows = [edge(0, 1), edge(1, 2)];
    let graph = graph_of(&rt, 3, &rows);
    let weights = measuring::starting_weights(rt.alloc(), &graph)?;
    assert_eq!(rt;
        weights.vertices.as_slice(),
        [level(27735), level(33384), level(42490)].as_slice()
    );
    assert_eq!(rt;
        weights.edges.as_slice(),
        [level(27735), level(33384)].as_slice()
    );
    Ok(())
}

#[test]
fn lowest_weights_become_others(rt: HostRuntime) -> anyhow::Result<()> {
    let rows = [edge(0, 1), edge(1, 2)];
    let graph = graph_of(&rt, 3, &rows);
    let start = measuring::starting_weights(rt.alloc(), &graph)?;
    let mut weights = Buffers::lowest(rt.alloc(), 3, 2)?;
    assert_eq!(rt;
        weights.vertices.as_slice(),
        [level(0), level(0), level(0)].as_slice()
    );
    assert_eq!(rt; weights.edges.as_slice(), [level(0), level(0)].as_slice());
    weights.copy_from(&start)?;
    assert_eq!(rt; weights.vertices.as_slice(), start.vertices.as_slice());
    assert_eq!(rt; weights.edges.as_slice(), start.edges.as_slice());
    Ok(())
}

#[test]
fn checksums(rt: HostRuntime) {
    assert_eq!(rt; checksum_records(b"", b""), 14695981039346656037);
    assert_eq!(rt; checksum_records(b"a", b""), 12638187200555641996);
    assert_eq!(rt; checksum_records(b"", b"a"), 12638187200555641996);
    let vertices = [level(0), level(258), level(65535)];
    let edges = [level(513)];
    assert_eq!(rt; checksum_levels(&vertices, &edges), 3619318588698978377);
    let vertex_records = [0, 0, 2, 1, 255, 255];
    let edge_records = [1, 2];
    assert_eq!(rt;
        checksum_records(&vertex_records, &edge_records),
        3619318588698978377
    );
}

#[test]
fn words(rt: HostRuntime) -> anyhow::Result<()> {
    let filter = Filter {
        family: Family::Opening,
        size: 10,
    };
    assert_eq!(rt; parse_filter("O", "10")?, filter);
    assert!(rt; parse_filter("X", "10").is_err());
    assert!(rt; parse_filter("O", "0").is_err());
    assert!(rt; parse_filter("O", "201").is_err());
    assert_eq!(rt; parse_repeat("3")?, 3);
    assert!(rt; parse_repeat("0").is_err());
    assert!(rt; read_mesh(&rt, &["grid", "0", "5"]).is_err());
    assert!(rt; read_mesh(&rt, &["grid", "1001", "1000"]).is_err());
    assert!(rt; read_mesh(&rt, &["random", "2", "1", "1"]).is_err());
    assert!(rt; read_mesh(&rt, &["random", "5", "6", "1"]).is_err());
    assert!(rt; read_mesh(&rt, &["random", "5", "4"]).is_err());
    assert!(rt; read_mesh(&rt, &["graph", "3", "2"]).is_err());
    assert!(rt; read_mesh(&rt, &[]).is_err());
    Ok(())
}
