//! The four passes between vertices and edges.

ghost use Rattle.std.specs.Prelude.{◌≡◌, ℕ, cond, length, replicate, slice_index_or};
ghost use Rattle.refusal.specs.Reports.{answer};
ghost use Rattle.graph.specs.Graphs.{Within, AllWithin};
ghost use Rattle.graph.specs.Shapes.{shape, shape_of};
ghost use Rattle.filters.specs.Passes.{joins, meets, touches, pass_to_edges, pass_to_vertices};
ghost use Rattle.filters.specs.Calls.{passed, to_edges_call, to_vertices_call};

use crate::fitting::fits;
use crate::sides::{Joins, Meets, Semilattice};
use graph::{Edge, Graph};
use lattice::Kind;
use refusal::Refusal;

/// Writes one weight at every place.
pub fn fill<K: Copy>(weights: &mut [K], weight: K)
    ensures { weights.new ≡ replicate (length weights.old) weight }
{
    // Kept as a loop, since the `fill` of a slice asks that a clone cannot fail, which `Copy` does not say.
    for w in weights.iter_mut() {
        *w = weight;
    }
}

/// Gives each edge the weights of its ends, combined.
fn gather<S: Semilattice<K>, K: Copy>(table: &[Edge], vertices: &[K], edges: &mut [K])
    requires within { AllWithin (length vertices.now) table.now }
    requires along { length edges.old ≡ length table.now }
    ensures { edges.new ≡ pass_to_edges S.side (shape (length vertices.now) table.now) vertices.now }
{
    // Kept with an index, since nothing is known of what a zip with `iter_mut` has written.
    for (i, e) in table.iter().enumerate() {
        edges[i] = S::combine(vertices[e.first as usize], vertices[e.second as usize]);
    }
}

/// Combines a weight into those of both ends of an edge. The ends differ, so both are read before either is written.
#[inline(always)]
pub(crate) fn combine_into_ends<S: Semilattice<K>, K: Copy>(e: Edge, weight: K, vertices: &mut [K])
    requires { Within (length vertices.old) e }
    ensures { (v : ℕ) → slice_index_or vertices.new v S.side.neutral ≡ cond (touches e v) (S.side.combine (slice_index_or vertices.old v S.side.neutral) weight) (slice_index_or vertices.old v S.side.neutral) }
{
    let first = e.first as usize;
    let second = e.second as usize;
    let at_first = vertices[first];
    let at_second = vertices[second];
    vertices[first] = S::combine(at_first, weight);
    vertices[second] = S::combine(at_second, weight);
}

/// Gives each vertex the weights of the edges at it, combined.
fn scatter<S: Semilattice<K>, K: Copy>(table: &[Edge], edges: &[K], vertices: &mut [K])
    requires within { AllWithin (length vertices.old) table.now }
    requires along { length edges.now ≡ length table.now }
    ensures { vertices.new ≡ pass_to_vertices S.side (shape (length vertices.old) table.now) edges.now }
{
    fill(vertices, S::neutral());
    for (e, weight) in table.iter().zip(edges) {
        combine_into_ends::<S, K>(*e, *weight, vertices);
    }
}

/// A pass to edges, or a refusal.
fn to_edges<S: Semilattice<K>, K: Copy>(
    graph: &Graph,
    vertices: &[K],
    edges: &mut [K],
) -> Result<(), Refusal>
    ensures { passed (answer result) edges.new ≡ to_edges_call S.side (shape_of graph.now) vertices.now edges.old }
{
    if !fits(graph, vertices, edges) {
        return Err(Refusal::WeightBufferLength);
    }
    gather::<S, K>(graph.edges(), vertices, edges);
    Ok(())
}

/// A pass to vertices, or a refusal.
fn to_vertices<S: Semilattice<K>, K: Copy>(
    graph: &Graph,
    edges: &[K],
    vertices: &mut [K],
) -> Result<(), Refusal>
    ensures { passed (answer result) vertices.new ≡ to_vertices_call S.side (shape_of graph.now) edges.now vertices.old }
{
    if !fits(graph, vertices, edges) {
        return Err(Refusal::WeightBufferLength);
    }
    scatter::<S, K>(graph.edges(), edges, vertices);
    Ok(())
}

// The four passes are one line of a generic function each, and kept, since each has a name of its own in the field.

/// Gives each edge the join of the weights of its ends. Refused where a buffer has the wrong length; then no weight changes.
pub fn join_to_edges<K: Kind>(graph: &Graph, vertices: &[K], edges: &mut [K]) -> Result<(), Refusal>
    ensures { passed (answer result) edges.new ≡ to_edges_call (joins K.operations) (shape_of graph.now) vertices.now edges.old }
{
    to_edges::<Joins, K>(graph, vertices, edges)
}

/// Gives each edge the meet of the weights of its ends. Refused where a buffer has the wrong length; then no weight changes.
pub fn meet_to_edges<K: Kind>(graph: &Graph, vertices: &[K], edges: &mut [K]) -> Result<(), Refusal>
    ensures { passed (answer result) edges.new ≡ to_edges_call (meets K.operations) (shape_of graph.now) vertices.now edges.old }
{
    to_edges::<Meets, K>(graph, vertices, edges)
}

/// Gives each vertex the join of the weights of the edges at it, the lowest where there are none. Refused where a buffer has the
/// wrong length; then no weight changes.
pub fn join_to_vertices<K: Kind>(
    graph: &Graph,
    edges: &[K],
    vertices: &mut [K],
) -> Result<(), Refusal>
    ensures { passed (answer result) vertices.new ≡ to_vertices_call (joins K.operations) (shape_of graph.now) edges.now vertices.old }
{
    to_vertices::<Joins, K>(graph, edges, vertices)
}

/// Gives each vertex the meet of the weights of the edges at it, the highest where there are none. Refused where a buffer has
/// the wrong length; then no weight changes.
pub fn meet_to_vertices<K: Kind>(
    graph: &Graph,
    edges: &[K],
    vertices: &mut [K],
) -> Result<(), Refusal>
    ensures { passed (answer result) vertices.new ≡ to_vertices_call (meets K.operations) (shape_of graph.now) edges.now vertices.old }
{
    to_vertices::<Meets, K>(graph, edges, vertices)
}
