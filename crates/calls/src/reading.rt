//! Weights of another kind, read from those of a graph.

ghost use Rattle.std.specs.Prelude.{◌≡◌};
ghost use Rattle.refusal.specs.Reports.{answer};
ghost use Rattle.graph.specs.Shapes.{shape_of};
ghost use Rattle.filters.specs.Weightings.{weights_in, weights_before, weights_after};
ghost use Rattle.stories.specs.Calls.{reads, read_call};

use crate::places::read_each;
use filters::{Weights, WeightsMut, both_fit};
use graph::Graph;
use lattice::Kind;
use readings::Reading;
use refusal::Refusal;

/// Writes the reading of each weight to buffers of the other kind. Refused where a buffer has the wrong length (7); then every buffer
/// is as it was.
pub fn read_weights<K: Kind, R: Reading<Source = K>>(
    graph: &Graph,
    reading: &R,
    weights: Weights<'_, '_, K>,
    images: WeightsMut<'_, '_, R::Target>,
) -> Result<(), Refusal>
    ensures { reads (answer result) (weights_after images.exit) ≡ read_call (R.image reading.now) (shape_of graph.now) (weights_in weights.entry) (weights_before images.entry) }
{
    // Taken apart: of a struct that holds `&mut`s one field cannot be passed to a call beside another.
    let WeightsMut { vertices, edges } = images;
    if !both_fit(graph, weights.vertices, weights.edges, vertices, edges) {
        return Err(Refusal::WeightBufferLength);
    }
    read_each(reading, weights.vertices, vertices);
    read_each(reading, weights.edges, edges);
    Ok(())
}
