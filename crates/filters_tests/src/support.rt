// What the tests share: filters by their letters, weights by their numbers, and filters on whole weightings.

use filters::{Family, Filter, WeightsMut};
use graph::{Edge, Graph, judge};
use lattice::{Classes, Kind, Level, Presence, Reversed};
use refusal::{Part, Refusal};
use std::process::Abort;
use std::test::Fail;

// `edge`, `weights`, `levels`, `reversed`, `presences`, `outcome` and `graph_of` stand in other test crates too. A crate for them would be
// a library, and each of its public functions would owe a contract and a must-fail edit, for a few lines.

// A function for each letter, as a recipe names the filters: `d(1)` for `D1`.

pub(crate) fn d(size: u32) -> Filter {
    Filter {
        family: Family::Dilation,
        size,
    }
}

pub(crate) fn e(size: u32) -> Filter {
    Filter {
        family: Family::Erosion,
        size,
    }
}

pub(crate) fn o(size: u32) -> Filter {
    Filter {
        family: Family::Opening,
        size,
    }
}

pub(crate) fn c(size: u32) -> Filter {
    Filter {
        family: Family::Closing,
        size,
    }
}

pub(crate) fn a(size: u32) -> Filter {
    Filter {
        family: Family::Alternate,
        size,
    }
}

pub(crate) fn edge(first: u32, second: u32) -> Edge {
    Edge { first, second }
}

// The edges 0-1, 1-2, 2-3 and 3-4.
pub(crate) fn path() -> [Edge; 4] {
    [edge(0, 1), edge(1, 2), edge(2, 3), edge(3, 4)]
}

// Weights of these values, each made in the same way. Kept as a loop, since `map` over an array of N does not prove: its
// `map-requires` stays open.
fn weights<V: Copy, K: Kind, Make: Fn(V) -> K, const N: usize>(values: [V; N], make: Make) -> [K; N]
    requires { Make.IsAlwaysCallable make }
{
    let mut weights = [K::lowest(); N];
    for (weight, value) in weights.iter_mut().zip(values.iter()) {
        *weight = make(*value);
    }
    weights
}

pub(crate) fn levels<const N: usize>(values: [u16; N]) -> [Level; N] {
    weights(values, Level::new)
}

pub(crate) fn reversed<const N: usize>(values: [u16; N]) -> [Reversed<Level>; N] {
    weights(
        values,
        |value| Reversed {
            inner: Level::new(value),
        },
    )
}

pub(crate) fn presences<const N: usize>(values: [u8; N]) -> [Presence; N] {
    weights(values, |value| Presence::from(value == 1))
}

// Two vertices and their edge as sets of classes, by their bits.
pub(crate) fn sets(first: u32, second: u32, edge: u32) -> Sheet<Classes, 2, 1> {
    (
        [Classes::from_bits(first), Classes::from_bits(second)],
        [Classes::from_bits(edge)],
    )
}

// What a call answers: nothing, or the number, the place and the part of its refusal.
pub type Outcome = Result<(), (u8, usize, Part)>;

pub(crate) fn outcome(answer: Result<(), Refusal>) -> Outcome {
    answer.map_err(|refusal| (refusal.number(), refusal.place(), refusal.part()))
}

pub const ACCEPTED: Outcome = Ok(());

// A refusal of the weights or the size of a filter: it names no place.
pub(crate) fn refused(number: u8) -> Outcome {
    Err((number, 0, Part::Sheet))
}

// The graph of these rows, or the empty one where they are refused.
pub(crate) fn graph_of<'a>(n: usize, rows: &'a [Edge]) -> Graph<'a> {
    let mut graph = Graph::empty();
    let _ = judge(&mut graph, n, rows);
    graph
}

// Applies a filter on the graph of these rows. Kept with single slices, since a `WeightsMut` cannot be passed on to the next call.
pub(crate) fn apply<K: Kind>(
    filter: Filter,
    n: usize,
    rows: &[Edge],
    vertices: &mut [K],
    edges: &mut [K],
    vertex_scratch: &mut [K],
    edge_scratch: &mut [K],
) -> Result<(), Refusal> {
    let mut graph = Graph::empty();
    judge(&mut graph, n, rows)?;
    let scratch = WeightsMut {
        vertices: vertex_scratch,
        edges: edge_scratch,
    };
    filter.apply(&graph, WeightsMut { vertices, edges }, scratch)
}

// The weights of vertices and of edges, or scratch for them.
pub type Sheet<K, const N: usize, const M: usize> = ([K; N], [K; M]);

// What a filter on the graph of these rows answers, and what it leaves of these weights and of this scratch.
pub(crate) fn with_scratch<K: Kind, const V: usize, const E: usize, const W: usize, const F: usize>(
    filter: Filter,
    n: usize,
    rows: &[Edge],
    weights: Sheet<K, V, E>,
    scratch: Sheet<K, W, F>,
) -> (Result<(), Refusal>, Sheet<K, V, E>, Sheet<K, W, F>) {
    let (mut vertices, mut edges) = weights;
    let (mut vertex_scratch, mut edge_scratch) = scratch;
    let answer = apply(
        filter,
        n,
        rows,
        &mut vertices,
        &mut edges,
        &mut vertex_scratch,
        &mut edge_scratch,
    );
    (answer, (vertices, edges), (vertex_scratch, edge_scratch))
}

// What the filters, first to last, leave of these weights.
pub(crate) fn filtered<K: Kind, const N: usize, const M: usize>(
    filters: &[Filter],
    rows: &[Edge],
    weights: Sheet<K, N, M>,
) -> Result<Sheet<K, N, M>, Refusal> {
    let mut weights = weights;
    let mut scratch = ([K::highest(); N], [K::highest(); M]);
    for filter in filters {
        let (answer, left, scratch_left) = with_scratch(*filter, N, rows, weights, scratch);
        answer?;
        weights = left;
        scratch = scratch_left;
    }
    Ok(weights)
}

// Levels on the path.
pub(crate) fn path_levels(vertices: [u16; 5], edges: [u16; 4]) -> Sheet<Level, 5, 4> {
    (levels(vertices), levels(edges))
}

// Presences on the path.
pub(crate) fn path_presences(vertices: [u8; 5], edges: [u8; 4]) -> Sheet<Presence, 5, 4> {
    (presences(vertices), presences(edges))
}

// Whether each weight is below the other one at its place.
pub(crate) fn all_below<K: Kind>(lower: &[K], upper: &[K]) -> bool {
    lower.len() == upper.len()
        && lower
            .iter()
            .zip(upper)
            .all(|(weight, bound)| weight.is_below(*bound))
}

// Filters, and what they leave at the vertices and the edges of the path sheet.
pub type Example<'a> = (&'a [Filter], [u16; 5], [u16; 4]);

// Checks each example.
pub(crate) fn check_examples(rt: &impl Abort, examples: &[Example]) -> Result<(), Fail> {
    for (filters, vertices, edges) in examples {
        assert_eq!(rt; on_path(filters)?, path_levels(*vertices, *edges));
    }
    Ok(())
}

// What the filters leave of the path sheet.
pub(crate) fn on_path(filters: &[Filter]) -> Result<Sheet<Level, 5, 4>, Refusal> {
    let sheet = path_levels([5, 2, 7, 7, 1], [2, 2, 7, 1]);
    filtered(filters, &path(), sheet)
}
