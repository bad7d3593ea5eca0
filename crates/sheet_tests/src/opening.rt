// Sheets from records: what the buffers then hold, and which records are refused in which order.

use crate::support::*;
use filters::WeightsMut;
use graph::Edge;
use lattice::*;
use path_sheet::{edges, vertex_records};
use refusal::Part;
use sheet::Sheet;
use std::process::Abort;

// What opening a sheet answers, and what the weight buffers hold afterwards.
fn opened<K: Stored, const N: usize, const M: usize>(
    n: usize,
    rows: &[Edge],
    vertex_records: &[u8],
    edge_records: Option<&[u8]>,
    before: ([K; N], [K; M]),
) -> (Answer, ([K; N], [K; M])) {
    let graph = graph_of(n, rows);
    let (mut vertices, mut edges) = before;
    let weights = WeightsMut {
        vertices: &mut vertices,
        edges: &mut edges,
    };
    let answer = Sheet::open(&graph, vertex_records, edge_records, weights)
        .map(|_| ())
        .map_err(report);
    (answer, (vertices, edges))
}

// What opening a sheet of the path answers.
fn opened_path(edge_records: Option<&[u8]>) -> (Answer, ([Level; 5], [Level; 4])) {
    let before = path_levels([9; 5], [8; 4]);
    opened(5, &edges(), &vertex_records(), edge_records, before)
}

// Without edge records each edge gets the meet of its ends.
#[test]
fn path(rt: HostRuntime) {
    let meets = path_levels([5, 2, 7, 7, 1], [2, 2, 7, 1]);
    assert_eq!(rt; opened_path(None), (ACCEPTED, meets));
    assert_eq!(rt;
        opened_path(Some(&[2, 0, 2, 0, 7, 0, 1, 0])),
        (ACCEPTED, meets)
    );
    let lower = path_levels([5, 2, 7, 7, 1], [1, 0, 6, 1]);
    assert_eq!(rt;
        opened_path(Some(&[1, 0, 0, 0, 6, 0, 1, 0])),
        (ACCEPTED, lower)
    );
    let before = path_levels([9; 5], [8; 4]);
    let answer = opened_path(Some(&[2, 0, 3, 0, 7, 0, 1, 0]));
    assert_eq!(rt; answer, (refused(10, 1, Part::Sheet), before));
}

fn edge_levels<const N: usize, const M: usize>(
    vertices: [u16; N],
    edges: [u16; M],
) -> ([Level; N], [Level; M]) {
    (levels(vertices), levels(edges))
}

// What opening a sheet of two vertices and their edge answers.
fn opened_edge<const N: usize, const M: usize>(
    vertex_records: &[u8],
    edge_records: Option<&[u8]>,
    before: ([Level; N], [Level; M]),
) -> (Answer, ([Level; N], [Level; M])) {
    let rows = [Edge {
        first: 0,
        second: 1,
    }];
    opened(2, &rows, vertex_records, edge_records, before)
}

#[test]
fn record_lengths(rt: HostRuntime) {
    let before = edge_levels([9; 2], [8; 1]);
    let unchanged = (refused(8, 0, Part::Sheet), before);
    assert_eq!(rt; opened_edge(&[4, 0, 6, 0, 0], None, before), unchanged);
    assert_eq!(rt; opened_edge(&[4, 0, 6, 0], Some(&[4]), before), unchanged);
    assert_eq!(rt; opened_edge(&[4, 0, 6, 0], Some(&[]), before), unchanged);
}

// A weight buffer of wrong length is refused before records of wrong length.
#[test]
fn weight_lengths(rt: HostRuntime) {
    let before = edge_levels([9; 3], [8; 1]);
    let unchanged = (refused(7, 0, Part::Sheet), before);
    assert_eq!(rt; opened_edge(&[4, 0, 6, 0], None, before), unchanged);
    assert_eq!(rt; opened_edge(&[4, 0, 6], None, before), unchanged);
    let before = edge_levels([9; 2], [8; 2]);
    let unchanged = (refused(7, 0, Part::Sheet), before);
    assert_eq!(rt; opened_edge(&[4, 0, 6, 0], None, before), unchanged);
    assert_eq!(rt; opened_edge(&[4, 0, 6, 0], Some(&[4]), before), unchanged);
}

// The edge of weight 5 between ends 4 and 6 is not below both.
#[test]
fn edge_above_an_end(rt: HostRuntime) {
    let before = edge_levels([9; 2], [8; 1]);
    let unchanged = (refused(10, 0, Part::Sheet), before);
    assert_eq!(rt;
        opened_edge(&[4, 0, 6, 0], Some(&[5, 0]), before),
        unchanged
    );
    assert_eq!(rt;
        opened_edge(&[6, 0, 4, 0], Some(&[5, 0]), before),
        unchanged
    );
    let after = edge_levels([4, 6], [4]);
    assert_eq!(rt;
        opened_edge(&[4, 0, 6, 0], Some(&[4, 0]), before),
        (ACCEPTED, after)
    );
}

// What opening a path of three vertices answers, where the buffers stay as they were.
fn refused_presences(
    rt: &impl Abort,
    vertex_records: &[u8],
    edge_records: Option<&[u8]>,
    number: u8,
    place: usize,
) {
    let rows = [
        Edge {
            first: 0,
            second: 1,
        },
        Edge {
            first: 1,
            second: 2,
        },
    ];
    let before = (presences([1, 0, 1]), presences([0, 1]));
    let (answer, after) = opened(3, &rows, vertex_records, edge_records, before);
    assert_eq!(rt; answer, refused(number, place, Part::Sheet));
    assert_eq!(rt; after, before);
}

// Each with the refusal's number and place: records of wrong length come first, then vertex records, then edge by edge.
#[test]
fn records_in_order(rt: HostRuntime) {
    refused_presences(&rt, &[0, 2, 1], None, 9, 1);
    refused_presences(&rt, &[0, 2], None, 8, 0);
    refused_presences(&rt, &[0, 2, 1], Some(&[2]), 8, 0);
    refused_presences(&rt, &[1, 1, 2], Some(&[2, 2]), 9, 2);
}

#[test]
fn edge_records_in_order(rt: HostRuntime) {
    refused_presences(&rt, &[1, 1, 1], Some(&[2, 0]), 9, 3);
    refused_presences(&rt, &[1, 1, 1], Some(&[0, 255]), 9, 4);
    refused_presences(&rt, &[0, 1, 1], Some(&[1, 2]), 10, 0);
    refused_presences(&rt, &[0, 1, 0], Some(&[0, 1]), 10, 1);
}

// In the turned order the meet is the larger, and an edge is below its ends where it is above them in number.
#[test]
fn reversed_levels(rt: HostRuntime) {
    let rows = [Edge {
        first: 0,
        second: 1,
    }];
    let before = (reversed([9; 2]), reversed([8]));
    assert_eq!(rt;
        opened(2, &rows, &[4, 0, 6, 0], None, before),
        (ACCEPTED, (reversed([4, 6]), reversed([6])))
    );
    assert_eq!(rt;
        opened(2, &rows, &[4, 0, 6, 0], Some(&[5, 0]), before),
        (refused(10, 0, Part::Sheet), before)
    );
}

#[test]
fn empty_graphs(rt: HostRuntime) {
    let nothing: ([Level; 0], [Level; 0]) = ([], []);
    assert_eq!(rt; opened(0, &[], &[], None, nothing), (ACCEPTED, nothing));
    assert_eq!(rt;
        opened(0, &[], &[], Some(&[]), nothing),
        (ACCEPTED, nothing)
    );
    assert_eq!(rt;
        opened(0, &[], &[0], None, nothing),
        (refused(8, 0, Part::Sheet), nothing)
    );
}
