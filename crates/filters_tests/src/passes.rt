// The four passes between vertices and edges, and what else works on buffers.

use crate::support::*;
use filters::*;
use graph::Edge;
use lattice::*;
use refusal::Refusal;

// What two passes answer, and what each leaves of these weights.
fn both<K: Kind, const N: usize, Join, Meet>(
    before: [K; N],
    join: Join,
    meet: Meet,
) -> [(Outcome, [K; N]); 2]
where
    Join: Fn(&mut [K]) -> Result<(), Refusal>,
    Meet: Fn(&mut [K]) -> Result<(), Refusal>,
    requires join { Join.IsAlwaysCallable join }
    requires meet { Meet.IsAlwaysCallable meet }
{
    let mut joins = before;
    let by_join = outcome(join(&mut joins));
    let mut meets = before;
    let by_meet = outcome(meet(&mut meets));
    [(by_join, joins), (by_meet, meets)]
}

// What the passes to edges give: by join, then by meet.
fn to_edges<K: Kind, const M: usize>(
    n: usize,
    rows: &[Edge],
    vertices: &[K],
    before: [K; M],
) -> [(Outcome, [K; M]); 2] {
    let graph = graph_of(n, rows);
    both(
        before,
        |edges| join_to_edges(&graph, vertices, edges),
        |edges| meet_to_edges(&graph, vertices, edges),
    )
}

// What the passes to vertices give: by join, then by meet.
fn to_vertices<K: Kind, const N: usize>(
    n: usize,
    rows: &[Edge],
    edges: &[K],
    before: [K; N],
) -> [(Outcome, [K; N]); 2] {
    let graph = graph_of(n, rows);
    both(
        before,
        |vertices| join_to_vertices(&graph, edges, vertices),
        |vertices| meet_to_vertices(&graph, edges, vertices),
    )
}

#[test]
fn passes_on_path(rt: HostRuntime) {
    assert_eq!(rt;
        to_edges(5, &path(), &levels([5, 2, 7, 7, 1]), levels([9; 4])),
        [
            (ACCEPTED, levels([5, 7, 7, 7])),
            (ACCEPTED, levels([2, 2, 7, 1])),
        ]
    );
    assert_eq!(rt;
        to_vertices(5, &path(), &levels([2, 2, 7, 1]), levels([9; 5])),
        [
            (ACCEPTED, levels([2, 2, 7, 7, 1])),
            (ACCEPTED, levels([2, 2, 2, 1, 1])),
        ]
    );
}

#[test]
fn passes_of_nothing(rt: HostRuntime) {
    assert_eq!(rt;
        to_vertices(3, &[edge(0, 1)], &levels([4]), levels([9; 3])),
        [
            (ACCEPTED, levels([4, 4, 0])),
            (ACCEPTED, levels([4, 4, 65535])),
        ]
    );
    assert_eq!(rt;
        to_edges(3, &[], &levels([4, 6, 9]), []),
        [(ACCEPTED, []), (ACCEPTED, [])]
    );
}

#[test]
fn passes_of_wrong_lengths(rt: HostRuntime) {
    let short = [(refused(7), levels([9; 3])); 2];
    assert_eq!(rt;
        to_edges(5, &path(), &levels([5, 2, 7, 7, 1]), levels([9; 3])),
        short
    );
    assert_eq!(rt;
        to_vertices(5, &path(), &levels([2, 2, 7, 1]), levels([9; 3])),
        short
    );
    let right = [(refused(7), levels([9; 4])); 2];
    assert_eq!(rt;
        to_edges(5, &path(), &levels([5, 2, 7, 7]), levels([9; 4])),
        right
    );
    assert_eq!(rt;
        to_edges(5, &path(), &levels([5, 2, 7, 7, 1, 1]), levels([9; 4])),
        right
    );
    let right = [(refused(7), levels([9; 5])); 2];
    assert_eq!(rt;
        to_vertices(5, &path(), &levels([2, 2, 7]), levels([9; 5])),
        right
    );
    assert_eq!(rt;
        to_vertices(5, &path(), &levels([2, 2, 7, 1, 1]), levels([9; 5])),
        right
    );
}

fn fit(vertices: &[u8], edges: &[u8]) -> bool {
    fits(&graph_of(5, &path()), vertices, edges)
}

#[test]
fn fitting(rt: HostRuntime) {
    assert!(rt; fit(&[0; 5], &[0; 4]));
    assert!(rt; !fit(&[0; 4], &[0; 4]));
    assert!(rt; !fit(&[0; 6], &[0; 4]));
    assert!(rt; !fit(&[0; 5], &[0; 3]));
    assert!(rt; !fit(&[0; 5], &[0; 5]));
    assert!(rt; fits::<u8>(&graph_of(0, &[]), &[], &[]));
}

#[test]
fn filling(rt: HostRuntime) {
    let mut weights = levels([1, 2, 3]);
    fill(&mut weights, Level::new(7));
    assert_eq!(rt; weights, levels([7, 7, 7]));
    fill::<Level>(&mut [], Level::new(7));
}
