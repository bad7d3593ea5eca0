use filters::{Weights, WeightsMut};
use graph::{Edge, Graph, judge};
use lattice::*;
use records::{load, store};
use refusal::{Part, Refusal};
use std::process::Abort;

// The cases are of one shape, each with its own values, and stand apart so that each can be read by itself.

// `outcome`, `edge`, `graph_of` and `reversed` stand in other test crates too. A crate for them would be a library, and each of
// its public functions would owe a contract and a must-fail edit, for three lines.

/// What a call answers: a refusal by its number, its place and its part.
type Outcome = Result<(), (u8, usize, Part)>;

fn outcome(answer: Result<(), Refusal>) -> Outcome {
    answer.map_err(|refusal| (refusal.number(), refusal.place(), refusal.part()))
}

const ACCEPTED: Outcome = Ok(());

/// A refusal by its number and place: the part is always the sheet.
fn refused(number: u8, place: usize) -> Outcome {
    Err((number, place, Part::Sheet))
}

fn edge(first: u32, second: u32) -> Edge {
    Edge { first, second }
}

/// The graph of these rows, which has to be accepted.
fn graph_of<'a>(rt: &impl Abort, n: usize, rows: &'a [Edge]) -> Graph<'a> {
    let mut graph = Graph::empty();
    assert!(rt; judge(&mut graph, n, rows).is_ok());
    graph
}

/// What loading these records answers.
fn loaded<K: Stored>(
    graph: &Graph,
    vertex_records: &[u8],
    edge_records: Option<&[u8]>,
    vertices: &mut [K],
    edges: &mut [K],
) -> Outcome {
    outcome(load(
        graph,
        vertex_records,
        edge_records,
        WeightsMut { vertices, edges },
    ))
}

/// What storing these weights answers.
fn stored<K: Stored>(
    graph: &Graph,
    vertices: &[K],
    edges: &[K],
    vertex_records: &mut [u8],
    edge_records: &mut [u8],
) -> Outcome {
    outcome(store(
        graph,
        Weights { vertices, edges },
        vertex_records,
        edge_records,
    ))
}

fn level(value: u16) -> Level {
    Level::new(value)
}

fn reversed(value: u16) -> Reversed<Level> {
    Reversed {
        inner: Level::new(value),
    }
}

#[test]
fn levels_with_their_edges(rt: HostRuntime) {
    let rows = [edge(0, 1), edge(1, 2)];
    let graph = graph_of(&rt, 3, &rows);
    let mut vertices = [level(0); 3];
    let mut edges = [level(0); 2];
    // 258 is 2 and 1, the low byte first.
    let vertex_records = [4, 0, 2, 1, 6, 0];
    let edge_records = [4, 0, 5, 0];
    assert_eq!(rt;
        loaded(
            &graph,
            &vertex_records,
            Some(&edge_records),
            &mut vertices,
            &mut edges,
        ),
        ACCEPTED
    );
    assert!(rt; vertices == [level(4), level(258), level(6)]);
    assert!(rt; edges == [level(4), level(5)]);
}

#[test]
fn absent_edges_are_met(rt: HostRuntime) {
    let rows = [edge(0, 1), edge(1, 2)];
    let graph = graph_of(&rt, 3, &rows);
    let mut vertices = [level(9); 3];
    let mut edges = [level(9); 2];
    let vertex_records = [4, 0, 7, 0, 6, 0];
    assert_eq!(rt;
        loaded(&graph, &vertex_records, None, &mut vertices, &mut edges),
        ACCEPTED
    );
    assert!(rt; vertices == [level(4), level(7), level(6)]);
    assert!(rt; edges == [level(4), level(6)]);
}

// Absent is not empty: a graph with an edge asks for one record.
#[test]
fn empty_edge_records_are_too_short(rt: HostRuntime) {
    let rows = [edge(0, 1)];
    let graph = graph_of(&rt, 2, &rows);
    let mut vertices = [level(9); 2];
    let mut edges = [level(9); 1];
    assert_eq!(rt;
        loaded(&graph, &[4, 0, 7, 0], Some(&[]), &mut vertices, &mut edges),
        refused(8, 0)
    );
    assert!(rt; vertices == [level(9), level(9)]);
    assert!(rt; edges == [level(9)]);
}

#[test]
fn two_levels_in_five_bytes(rt: HostRuntime) {
    let graph = graph_of(&rt, 2, &[]);
    let mut vertices = [level(9); 2];
    let none: &mut [Level] = &mut [];
    assert_eq!(rt;
        loaded(&graph, &[1, 0, 2, 0, 3], None, &mut vertices, none),
        refused(8, 0)
    );
    assert!(rt; vertices == [level(9), level(9)]);
    assert_eq!(rt;
        loaded(&graph, &[1, 0, 2], None, &mut vertices, none),
        refused(8, 0)
    );
    assert!(rt; vertices == [level(9), level(9)]);
}

#[test]
fn two_vertices_in_three_places(rt: HostRuntime) {
    let graph = graph_of(&rt, 2, &[]);
    let mut vertices = [level(9); 3];
    let none: &mut [Level] = &mut [];
    assert_eq!(rt;
        loaded(&graph, &[1, 0, 2, 0], None, &mut vertices, none),
        refused(7, 0)
    );
    assert!(rt; vertices == [level(9), level(9), level(9)]);
    // A place for an edge that the graph has not.
    let mut two = [level(9); 2];
    let mut one = [level(9); 1];
    assert_eq!(rt;
        loaded(&graph, &[1, 0, 2, 0], None, &mut two, &mut one),
        refused(7, 0)
    );
}

// A weight buffer of the wrong length comes before a byte buffer of the wrong length and before a record that is no value.
#[test]
fn weight_buffers_come_first(rt: HostRuntime) {
    let graph = graph_of(&rt, 2, &[]);
    let mut vertices = [Presence::Absent; 3];
    let none: &mut [Presence] = &mut [];
    assert_eq!(rt;
        loaded(&graph, &[0, 1, 1, 1, 1], None, &mut vertices, none),
        refused(7, 0)
    );
    assert_eq!(rt;
        loaded(&graph, &[2, 2], None, &mut vertices, none),
        refused(7, 0)
    );
}

// The length of the edge bytes comes before the vertex records.
#[test]
fn lengths_come_before_records(rt: HostRuntime) {
    let rows = [edge(0, 1)];
    let graph = graph_of(&rt, 2, &rows);
    let mut vertices = [Presence::Absent; 2];
    let mut edges = [Presence::Absent; 1];
    assert_eq!(rt;
        loaded(&graph, &[2, 2], Some(&[1, 1]), &mut vertices, &mut edges),
        refused(8, 0)
    );
}

#[test]
fn a_byte_that_is_no_presence(rt: HostRuntime) {
    let rows = [edge(0, 1), edge(1, 2)];
    let graph = graph_of(&rt, 3, &rows);
    let mut vertices = [Presence::Present; 3];
    let mut edges = [Presence::Present; 2];
    // A vertex: its own place.
    assert_eq!(rt;
        loaded(&graph, &[0, 2, 2], Some(&[2, 0]), &mut vertices, &mut edges),
        refused(9, 1)
    );
    // An edge: counted on from the number of vertices.
    assert_eq!(rt;
        loaded(&graph, &[1, 1, 1], Some(&[1, 2]), &mut vertices, &mut edges),
        refused(9, 4)
    );
    assert!(rt; vertices == [Presence::Present, Presence::Present, Presence::Present]);
    assert!(rt; edges == [Presence::Present, Presence::Present]);
}

#[test]
fn an_edge_above_an_end(rt: HostRuntime) {
    let rows = [edge(0, 1)];
    let graph = graph_of(&rt, 2, &rows);
    let mut vertices = [level(9); 2];
    let mut edges = [level(9); 1];
    // Above its first end, and above its second.
    assert_eq!(rt;
        loaded(
            &graph,
            &[4, 0, 6, 0],
            Some(&[5, 0]),
            &mut vertices,
            &mut edges,
        ),
        refused(10, 0)
    );
    assert_eq!(rt;
        loaded(
            &graph,
            &[6, 0, 4, 0],
            Some(&[5, 0]),
            &mut vertices,
            &mut edges,
        ),
        refused(10, 0)
    );
    assert!(rt; vertices == [level(9), level(9)]);
    assert!(rt; edges == [level(9)]);
    assert_eq!(rt;
        loaded(
            &graph,
            &[4, 0, 6, 0],
            Some(&[4, 0]),
            &mut vertices,
            &mut edges,
        ),
        ACCEPTED
    );
    assert!(rt; edges == [level(4)]);
}

// Edge 0 passes both rules before edge 1 is looked at.
#[test]
fn edges_are_judged_singly(rt: HostRuntime) {
    let rows = [edge(0, 1), edge(1, 2)];
    let graph = graph_of(&rt, 3, &rows);
    let mut vertices = [Presence::Absent; 3];
    let mut edges = [Presence::Absent; 2];
    assert_eq!(rt;
        loaded(&graph, &[0, 1, 1], Some(&[1, 2]), &mut vertices, &mut edges),
        refused(10, 0)
    );
    assert_eq!(rt;
        loaded(&graph, &[1, 1, 0], Some(&[2, 1]), &mut vertices, &mut edges),
        refused(9, 3)
    );
    // Rule 10 counts the edges from 0 on.
    assert_eq!(rt;
        loaded(&graph, &[1, 1, 0], Some(&[1, 1]), &mut vertices, &mut edges),
        refused(10, 1)
    );
}

// A vertex record that is no value comes before every edge record.
#[test]
fn vertices_come_before_edges(rt: HostRuntime) {
    let rows = [edge(0, 1)];
    let graph = graph_of(&rt, 3, &rows);
    let mut vertices = [Presence::Absent; 3];
    let mut edges = [Presence::Absent; 1];
    assert_eq!(rt;
        loaded(&graph, &[0, 0, 7], Some(&[9]), &mut vertices, &mut edges),
        refused(9, 2)
    );
    assert_eq!(rt;
        loaded(&graph, &[0, 0, 7], Some(&[1]), &mut vertices, &mut edges),
        refused(9, 2)
    );
}

// In a reversal an edge is to have the larger number, and the meet is the larger.
#[test]
fn reversed_levels(rt: HostRuntime) {
    let rows = [edge(0, 1)];
    let graph = graph_of(&rt, 2, &rows);
    let mut vertices = [reversed(9); 2];
    let mut edges = [reversed(9); 1];
    assert_eq!(rt;
        loaded(
            &graph,
            &[4, 0, 6, 0],
            Some(&[5, 0]),
            &mut vertices,
            &mut edges,
        ),
        refused(10, 0)
    );
    assert_eq!(rt;
        loaded(
            &graph,
            &[4, 0, 6, 0],
            Some(&[7, 0]),
            &mut vertices,
            &mut edges,
        ),
        ACCEPTED
    );
    assert!(rt; edges == [reversed(7)]);
    assert_eq!(rt;
        loaded(&graph, &[4, 0, 6, 0], None, &mut vertices, &mut edges),
        ACCEPTED
    );
    assert!(rt; vertices == [reversed(4), reversed(6)]);
    assert!(rt; edges == [reversed(6)]);
}

// Class sets are in no line: the edge is to be in both its ends' sets.
#[test]
fn class_sets(rt: HostRuntime) {
    let rows = [edge(0, 1)];
    let graph = graph_of(&rt, 2, &rows);
    let mut vertices = [Classes::from_bits(0); 2];
    let mut edges = [Classes::from_bits(0); 1];
    let vertex_records = [3, 0, 0, 128, 6, 0, 0, 128];
    assert_eq!(rt;
        loaded(
            &graph,
            &vertex_records,
            Some(&[1, 0, 0, 0]),
            &mut vertices,
            &mut edges,
        ),
        refused(10, 0)
    );
    assert_eq!(rt;
        loaded(
            &graph,
            &vertex_records,
            Some(&[2, 0, 0, 0]),
            &mut vertices,
            &mut edges,
        ),
        ACCEPTED
    );
    assert!(rt; edges == [Classes::from_bits(2)]);
    assert_eq!(rt;
        loaded(&graph, &vertex_records, None, &mut vertices, &mut edges),
        ACCEPTED
    );
    assert!(rt;
        vertices
            == [
                Classes::from_bits(0x8000_0003),
                Classes::from_bits(0x8000_0006),
            ]
    );
    assert!(rt; edges == [Classes::from_bits(0x8000_0002)]);
}

#[test]
fn the_empty_graph(rt: HostRuntime) {
    let graph = Graph::empty();
    let vertices: &mut [Level] = &mut [];
    let edges: &mut [Level] = &mut [];
    assert_eq!(rt; loaded(&graph, &[], None, vertices, edges), ACCEPTED);
    assert_eq!(rt; loaded(&graph, &[], Some(&[]), vertices, edges), ACCEPTED);
    assert_eq!(rt;
        loaded(&graph, &[0, 0], None, vertices, edges),
        refused(8, 0)
    );
    assert_eq!(rt;
        loaded(&graph, &[], Some(&[0, 0]), vertices, edges),
        refused(8, 0)
    );
    assert_eq!(rt; stored(&graph, vertices, edges, &mut [], &mut []), ACCEPTED);
}

#[test]
fn what_is_stored_loads_back(rt: HostRuntime) {
    let rows = [edge(0, 1), edge(1, 2)];
    let graph = graph_of(&rt, 3, &rows);
    let vertices = [level(4), level(258), level(65535)];
    let edges = [level(0), level(257)];
    let mut vertex_records = [9; 6];
    let mut edge_records = [9; 4];
    assert_eq!(rt;
        stored(
            &graph,
            &vertices,
            &edges,
            &mut vertex_records,
            &mut edge_records,
        ),
        ACCEPTED
    );
    assert!(rt; vertex_records == [4, 0, 2, 1, 255, 255]);
    assert!(rt; edge_records == [0, 0, 1, 1]);
    let mut vertices_again = [level(9); 3];
    let mut edges_again = [level(9); 2];
    assert_eq!(rt;
        loaded(
            &graph,
            &vertex_records,
            Some(&edge_records),
            &mut vertices_again,
            &mut edges_again,
        ),
        ACCEPTED
    );
    assert!(rt; vertices_again == vertices);
    assert!(rt; edges_again == edges);
}

// A store judges lengths alone: an edge weight that is above an end is written as it is.
#[test]
fn a_store_judges_no_order(rt: HostRuntime) {
    let rows = [edge(0, 1)];
    let graph = graph_of(&rt, 2, &rows);
    let vertices = [Presence::Absent, Presence::Present];
    let edges = [Presence::Present];
    let mut vertex_records = [9; 2];
    let mut edge_records = [9; 1];
    assert_eq!(rt;
        stored(
            &graph,
            &vertices,
            &edges,
            &mut vertex_records,
            &mut edge_records,
        ),
        ACCEPTED
    );
    assert!(rt; vertex_records == [0, 1]);
    assert!(rt; edge_records == [1]);
}

#[test]
fn a_refused_store_changes_no_byte(rt: HostRuntime) {
    let rows = [edge(0, 1)];
    let graph = graph_of(&rt, 2, &rows);
    let two = [level(1); 2];
    let one = [level(1); 1];
    let mut four_bytes = [9; 4];
    let mut two_bytes = [9; 2];
    // Weight buffers come before byte buffers.
    assert_eq!(rt;
        stored(&graph, &one, &one, &mut two_bytes, &mut four_bytes),
        refused(7, 0)
    );
    assert_eq!(rt;
        stored(&graph, &two, &two, &mut four_bytes, &mut two_bytes),
        refused(7, 0)
    );
    assert!(rt; four_bytes == [9, 9, 9, 9]);
    assert!(rt; two_bytes == [9, 9]);
    let mut three_bytes = [9; 3];
    assert_eq!(rt;
        stored(&graph, &two, &one, &mut four_bytes, &mut three_bytes),
        refused(8, 0)
    );
    assert_eq!(rt;
        stored(&graph, &two, &one, &mut three_bytes, &mut two_bytes),
        refused(8, 0)
    );
    assert!(rt; four_bytes == [9, 9, 9, 9]);
    assert!(rt; three_bytes == [9, 9, 9]);
    assert!(rt; two_bytes == [9, 9]);
}
