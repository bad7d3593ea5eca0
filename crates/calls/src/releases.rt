//! Held weights: they are copied, combined with the weights, and cleared.

ghost use Rattle.std.specs.Prelude.{◌≡◌, length};
ghost use Rattle.filters.specs.Weightings.{weighting, blank};
ghost use Rattle.stories.specs.Words.{combined};

use crate::places::combine_each;
use filters::{Semilattice, fill};
use lattice::Kind;

// Pairs of slices and no struct of them: each caller would make it for one call.

/// Makes a pair of buffers all lowest.
pub(crate) fn make_lowest<K: Kind>(vertices: &mut [K], edges: &mut [K])
    ensures { weighting vertices.new edges.new ≡ blank K.operations (weighting vertices.old edges.old) }
{
    fill(vertices, K::lowest());
    fill(edges, K::lowest());
}

/// Combines each weight with the held one at its place, and makes the held buffers all lowest.
pub(crate) fn release<S: Semilattice<K>, K: Kind>(
    vertices: &mut [K],
    edges: &mut [K],
    held_vertices: &mut [K],
    held_edges: &mut [K],
)
    requires vertices { length held_vertices.old ≡ length vertices.old }
    requires edges { length held_edges.old ≡ length edges.old }
    ensures weights { weighting vertices.new edges.new ≡ combined S.side.combine (weighting vertices.old edges.old) (weighting held_vertices.old held_edges.old) }
    ensures held { weighting held_vertices.new held_edges.new ≡ blank K.operations (weighting held_vertices.old held_edges.old) }
{
    combine_each::<S, K>(vertices, held_vertices);
    combine_each::<S, K>(edges, held_edges);
    make_lowest(held_vertices, held_edges);
}
