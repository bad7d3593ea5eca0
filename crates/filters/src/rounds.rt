//! Rounds: from one sort of weights over to the other, and back.

ghost use Rattle.std.specs.Prelude.{◌≡◌, length};
ghost use Rattle.graph.specs.Graphs.{AllWithin};
ghost use Rattle.graph.specs.Shapes.{shape};
ghost use Rattle.filters.specs.Passes.{pass_to_edges, pass_to_vertices};

use crate::passes::{combine_into_ends, fill};
use crate::sides::Semilattice;
use graph::{Edge, Graph};

/// Gives each edge the weights at its ends, combined, while each receiving vertex gets the old weights of the edges at it,
/// combined: one sweep over the edges, in place.
// Never inlined: in the code of a larger caller the loop would not stand aligned, and a round would take up to 8% longer.
#[inline(never)]
fn exchange<S: Semilattice<K>, K: Copy>(
    table: &[Edge],
    giving: &[K],
    edges: &mut [K],
    receiving: &mut [K],
)
    requires within { AllWithin (length giving.now) table.now }
    requires along { length edges.old ≡ length table.now }
    requires received { length receiving.old ≡ length giving.now }
    ensures edges { edges.new ≡ pass_to_edges S.side (shape (length giving.now) table.now) giving.now }
    ensures vertices { receiving.new ≡ pass_to_vertices S.side (shape (length giving.now) table.now) edges.old }
{
    fill(receiving, S::neutral());
    // Kept with an index, since nothing is known of what a zip with `iter_mut` has written. The edge is copied out first: read
    // through a reference, both its ends would be loaded again after the write to `edges[i]`.
    for (i, &e) in table.iter().enumerate() {
        let weight = edges[i];
        edges[i] = S::combine(giving[e.first as usize], giving[e.second as usize]);
        combine_into_ends::<S, K>(e, weight, receiving);
    }
}

/// The weights of a graph as the rounds change them, with scratch for those of the vertices.
#[derive(Drop)]
pub(crate) struct Work<'g, 'w, K> {
    pub(crate) graph: Graph<'g>,
    pub(crate) vertices: &'w mut [K],
    pub(crate) edges: &'w mut [K],
    pub(crate) scratch: &'w mut [K],
    ghost vertices_fit: { length vertices.now ≡ graph.n },
    ghost edges_fit: { length edges.now ≡ length graph.edges.now },
    ghost scratch_fits: { length scratch.now ≡ graph.n },
}

impl<K: Copy> Work<'_, '_, K> {
    ghost use Rattle.filters.specs.Filters.{repeat};
    ghost use Rattle.filters.specs.Works.{ChangesByRounds};

    /// One round of both sorts: vertices go to the edges by `Over` and back by `Back`, and edges to the vertices by `Over` and back
    /// by `Back`. Two sweeps over the edges.
    fn round<Over: Semilattice<K>, Back: Semilattice<K>>(&mut self)
        ensures { ChangesByRounds self.old self.new (λ round. round Over.Semilattice.side Back.Semilattice.side) }
    {
        let graph = self.graph;
        let table = graph.edges();
        exchange::<Over, K>(table, self.vertices, self.edges, self.scratch);
        exchange::<Back, K>(table, self.scratch, self.edges, self.vertices);
    }

    /// So many rounds.
    pub(crate) fn rounds<Over: Semilattice<K>, Back: Semilattice<K>>(&mut self, count: u32)
        ensures { ChangesByRounds self.old self.new (λ round. repeat (round Over.Semilattice.side Back.Semilattice.side) count) }
    {
        for _done in 0..count {
            self.round::<Over, Back>();
        }
    }
}
