//! Weights held beside those that are worked on.

ghost use Rattle.std.specs.Prelude.{◌≡◌};
ghost use Rattle.refusal.specs.Reports.{answer};
ghost use Rattle.graph.specs.Shapes.{shape_of};
ghost use Rattle.filters.specs.Calls.{outcome};
ghost use Rattle.filters.specs.Weightings.{weights_in, weights_before, weights_after};
ghost use Rattle.stories.specs.Calls.{hold_call, combine_call, forget_call};

use crate::releases::{make_lowest, release};
use filters::{Semilattice, Weights, WeightsMut, both_fit};
use graph::Graph;
use lattice::Kind;
use refusal::Refusal;

/// Copies the weights to the held buffers. Refused where a buffer has the wrong length (7); then every buffer is as it was.
pub fn hold_weights<K: Kind>(
    graph: &Graph,
    weights: Weights<'_, '_, K>,
    held: WeightsMut<'_, '_, K>,
) -> Result<(), Refusal>
    ensures { outcome (answer result) (weights_in weights.entry) (weights_after held.exit) ≡ hold_call (shape_of graph.now) (weights_in weights.entry) (weights_before held.entry) }
{
    // Taken apart, here and below: of a struct that holds `&mut`s one field cannot be passed to a call beside another.
    let WeightsMut { vertices, edges } = held;
    if !both_fit(graph, weights.vertices, weights.edges, vertices, edges) {
        return Err(Refusal::WeightBufferLength);
    }
    vertices.copy_from_slice(weights.vertices);
    edges.copy_from_slice(weights.edges);
    Ok(())
}

/// Puts at each place the join, or the meet, of its weight and the held one, and clears the held buffers. Refused where a buffer has
/// the wrong length (7); then every buffer is as it was.
pub fn combine_held<S: Semilattice<K>, K: Kind>(
    graph: &Graph,
    weights: WeightsMut<'_, '_, K>,
    held: WeightsMut<'_, '_, K>,
) -> Result<(), Refusal>
    ensures { outcome (answer result) (weights_after weights.exit) (weights_after held.exit) ≡ combine_call S.side.combine K.operations (shape_of graph.now) (weights_before weights.entry) (weights_before held.entry) }
{
    let WeightsMut { vertices, edges } = weights;
    let WeightsMut {
        vertices: held_vertices,
        edges: held_edges,
    } = held;
    if !both_fit(graph, vertices, edges, held_vertices, held_edges) {
        return Err(Refusal::WeightBufferLength);
    }
    release::<S, K>(vertices, edges, held_vertices, held_edges);
    Ok(())
}

/// Clears the held buffers. Refused where a buffer has the wrong length (7); then every buffer is as it was.
pub fn forget_held<K: Kind>(
    graph: &Graph,
    weights: Weights<'_, '_, K>,
    held: WeightsMut<'_, '_, K>,
) -> Result<(), Refusal>
    ensures { outcome (answer result) (weights_in weights.entry) (weights_after held.exit) ≡ forget_call K.operations (shape_of graph.now) (weights_in weights.entry) (weights_before held.entry) }
{
    let WeightsMut { vertices, edges } = held;
    if !both_fit(graph, weights.vertices, weights.edges, vertices, edges) {
        return Err(Refusal::WeightBufferLength);
    }
    make_lowest(vertices, edges);
    Ok(())
}
