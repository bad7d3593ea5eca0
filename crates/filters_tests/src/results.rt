// Filters on small graphs of each kind.

use crate::support::*;
use graph::Edge;
use lattice::*;
use std::alloc::{AllocError, Global};
use std::test::Fail;

#[test]
fn path_rounds(rt: HostRuntime) -> Result<(), Fail> {
    check_examples(
        &rt,
        &[
            (&[d(1)], [5, 7, 7, 7, 7], [2, 7, 7, 7]),
            (&[e(1)], [2, 2, 2, 1, 1], [2, 2, 1, 1]),
            (&[], [5, 2, 7, 7, 1], [2, 2, 7, 1]),
        ],
    )
}

// The edges that O1 leaves are not the meets of its vertices: those would be 2 2 7 1.
#[test]
fn path_openings(rt: HostRuntime) -> Result<(), Fail> {
    check_examples(
        &rt,
        &[
            (&[o(1)], [2, 2, 7, 7, 1], [2, 2, 2, 1]),
            (&[o(2)], [2, 2, 2, 2, 1], [2, 2, 2, 1]),
        ],
    )
}

#[test]
fn path_closings(rt: HostRuntime) -> Result<(), Fail> {
    check_examples(
        &rt,
        &[
            (&[c(1)], [5, 5, 7, 7, 7], [2, 2, 7, 1]),
            (&[c(2)], [5, 5, 7, 7, 7], [2, 2, 7, 7]),
        ],
    )
}

// The closing comes first: with the opening first A1 would leave 2 2 7 7 7 at the vertices.
#[test]
fn path_alternates(rt: HostRuntime) -> Result<(), Fail> {
    check_examples(
        &rt,
        &[
            (&[a(1)], [5, 5, 7, 7, 7], [2, 2, 2, 1]),
            (&[o(1), c(1)], [2, 2, 7, 7, 7], [2, 2, 2, 1]),
            (&[a(2)], [5, 5, 7, 7, 7], [2, 2, 2, 2]),
            (&[a(1), a(2)], [5, 5, 7, 7, 7], [2, 2, 2, 2]),
        ],
    )
}

// A vertex without edges gets the join or the meet of nothing.
#[test]
fn isolated_vertex(rt: HostRuntime) -> Result<(), Fail> {
    let rows = [edge(0, 1)];
    let sheet = (levels([4, 6, 9]), levels([4]));
    assert_eq!(rt;
        filtered(&[d(1)], &rows, sheet)?,
        (levels([6, 6, 0]), levels([4]))
    );
    assert_eq!(rt;
        filtered(&[e(1)], &rows, sheet)?,
        (levels([4, 4, 65535]), levels([4]))
    );
    assert_eq!(rt;
        filtered(&[c(1)], &rows, sheet)?,
        (levels([6, 6, 65535]), levels([4]))
    );
    assert_eq!(rt;
        filtered(&[o(1)], &rows, sheet)?,
        (levels([4, 4, 0]), levels([4]))
    );
    Ok(())
}

// A round that reads what it has just written would give 9 9 9.
#[test]
fn old_weights_are_read(rt: HostRuntime) -> Result<(), Fail> {
    let rows = [edge(0, 1), edge(1, 2)];
    assert_eq!(rt;
        filtered(&[d(1)], &rows, (levels([9, 0, 0]), levels([0, 0])))?,
        (levels([9, 9, 0]), levels([0, 0]))
    );
    assert_eq!(rt;
        filtered(&[d(1)], &rows, (levels([0, 0, 9]), levels([0, 0])))?,
        (levels([0, 9, 9]), levels([0, 0]))
    );
    Ok(())
}

#[test]
fn classes_unite_and_intersect(rt: HostRuntime) -> Result<(), Fail> {
    let rows = [edge(0, 1)];
    let sheet = sets(3, 6, 2);
    assert_eq!(rt; filtered(&[d(1)], &rows, sheet)?, sets(7, 7, 2));
    assert_eq!(rt; filtered(&[e(1)], &rows, sheet)?, sets(2, 2, 2));
    assert_eq!(rt; filtered(&[c(1)], &rows, sheet)?, sets(7, 7, 2));
    Ok(())
}

fn path_reversed(vertices: [u16; 5], edges: [u16; 4]) -> Sheet<Reversed<Level>, 5, 4> {
    (reversed(vertices), reversed(edges))
}

// In the turned order a dilation is an erosion, and an opening a closing.
#[test]
fn reversed_levels(rt: HostRuntime) -> Result<(), Fail> {
    let sheet = path_reversed([5, 2, 7, 7, 1], [2, 2, 7, 1]);
    let examples = [
        (d(1), [2, 2, 2, 1, 1], [2, 2, 1, 1]),
        (e(1), [5, 7, 7, 7, 7], [2, 7, 7, 7]),
        (o(2), [5, 5, 7, 7, 7], [2, 2, 7, 7]),
        (c(1), [2, 2, 7, 7, 1], [2, 2, 2, 1]),
    ];
    for (filter, vertices, edges) in examples {
        assert_eq!(rt;
            filtered(&[filter], &path(), sheet)?,
            path_reversed(vertices, edges)
        );
    }
    Ok(())
}

// The path with vertices 0, 2 and 3 and edge 2-3 present.
#[test]
fn presence(rt: HostRuntime) -> Result<(), Fail> {
    let sheet = path_presences([1, 0, 1, 1, 0], [0, 0, 1, 0]);
    let examples = [
        (d(1), [1, 1, 1, 1, 1], [0, 1, 1, 1]),
        (e(1), [0, 0, 0, 0, 0], [0, 0, 0, 0]),
        (o(1), [0, 0, 1, 1, 0], [0, 0, 0, 0]),
        (c(1), [1, 1, 1, 1, 1], [0, 0, 1, 0]),
        (a(1), [1, 1, 1, 1, 1], [0, 0, 0, 0]),
    ];
    for (filter, vertices, edges) in examples {
        assert_eq!(rt;
            filtered(&[filter], &path(), sheet)?,
            path_presences(vertices, edges)
        );
    }
    Ok(())
}

#[test]
fn no_vertices(rt: HostRuntime) -> Result<(), Fail> {
    let nothing: Sheet<Level, 0, 0> = ([], []);
    for filter in [d(1), e(200), o(3), c(4), a(200)] {
        assert_eq!(rt; filtered(&[filter], &[], nothing)?, nothing);
    }
    Ok(())
}

#[test]
fn no_edges(rt: HostRuntime) -> Result<(), Fail> {
    let sheet: Sheet<Level, 3, 0> = (levels([4, 0, 65535]), []);
    for filter in [d(1), o(1), o(2), a(1)] {
        assert_eq!(rt; filtered(&[filter], &[], sheet)?, (levels([0; 3]), []));
    }
    for filter in [e(1), c(1), c(2)] {
        assert_eq!(rt; filtered(&[filter], &[], sheet)?, (levels([65535; 3]), []));
    }
    Ok(())
}

// A path of so many vertices.
fn long_path(heap: Global, n: u32) -> Result<Vec<Edge>, AllocError> {
    (0..n)
        .zip(1..n)
        .map(|(first, second)| edge(first, second))
        .collect(heap)
}

fn at(weights: &[Level], place: usize) -> Option<u16> {
    weights.get(place).map(|weight| weight.value())
}

#[test]
fn million_vertices(rt: HostRuntime) -> Result<(), Fail> {
    let rows = long_path(rt.alloc(), 1_000_000)?;
    let mut vertices = vec![in rt.alloc(); Level::new(3); 1_000_000]?;
    let mut edges = vec![in rt.alloc(); Level::new(2); 999_999]?;
    let mut vertex_scratch = vec![in rt.alloc(); Level::new(8); 1_000_000]?;
    let mut edge_scratch = vec![in rt.alloc(); Level::new(9); 999_999]?;
    if let Some(weight) = vertices.get_mut(500_000) {
        *weight = Level::new(7);
    }
    if let Some(weight) = edges.get_mut(999_998) {
        *weight = Level::new(6);
    }
    apply(
        d(1),
        1_000_000,
        &rows,
        &mut vertices,
        &mut edges,
        &mut vertex_scratch,
        &mut edge_scratch,
    )?;
    for (place, value) in [
        (0, 3),
        (499_998, 3),
        (499_999, 7),
        (500_001, 7),
        (500_002, 3),
        (999_999, 3),
    ] {
        assert_eq!(rt; at(&vertices, place), Some(value));
    }
    for (place, value) in [(0, 2), (999_996, 2), (999_997, 6), (999_998, 6)] {
        assert_eq!(rt; at(&edges, place), Some(value));
    }
    assert_eq!(rt; at(&vertex_scratch, 999_999), Some(0));
    assert_eq!(rt; at(&edge_scratch, 999_998), Some(0));
    Ok(())
}
