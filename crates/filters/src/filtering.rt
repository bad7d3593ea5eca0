//! The filters, from rounds.

ghost use Rattle.std.specs.Prelude.{◌≡◌};
ghost use Rattle.graph.specs.Shapes.{shape_of};
ghost use Rattle.refusal.specs.Reports.{answer};
ghost use Rattle.filters.specs.Filters.{halves, opened, closed, alternated, filter_by};
ghost use Rattle.filters.specs.Weightings.{weights_before, weights_after};
ghost use Rattle.filters.specs.Calls.{outcome, filter_call};
ghost use Rattle.filters.specs.Works.{ChangesByRounds, ChangesByFilter};

use crate::families::{Family, Filter};
use crate::fitting::both_fit;
use crate::passes::fill;
use crate::rounds::Work;
use crate::sides::{Joins, Meets, Semilattice};
use crate::weights::WeightsMut;
use graph::Graph;
use lattice::Kind;
use refusal::Refusal;

impl<K: Copy> Work<'_, '_, K> {
    /// What openings and closings of a size share: half of its rounds all by `First`, one half round where the size is odd, over by
    /// `First` and back by `Second`, and the other half all by `Second`.
    fn halves<First: Semilattice<K>, Second: Semilattice<K>>(&mut self, size: u32)
        ensures { ChangesByRounds self.old self.new (λ round. halves (round First.Semilattice.side First.Semilattice.side) (round First.Semilattice.side Second.Semilattice.side) (round Second.Semilattice.side Second.Semilattice.side) size) }
    {
        self.rounds::<First, First>(size / 2);
        self.rounds::<First, Second>(size % 2);
        self.rounds::<Second, Second>(size / 2);
    }
}

impl<K: Kind> Work<'_, '_, K> {
    /// The opening of a size.
    fn open(&mut self, size: u32)
        ensures { ChangesByFilter K.operations self.old self.new (λ r. opened r size) }
    {
        self.halves::<Meets, Joins>(size);
    }

    /// The closing of a size.
    fn close(&mut self, size: u32)
        ensures { ChangesByFilter K.operations self.old self.new (λ r. closed r size) }
    {
        self.halves::<Joins, Meets>(size);
    }

    /// The closing of a size, and then the opening.
    fn close_and_open(&mut self, size: u32)
        ensures { ChangesByFilter K.operations self.old self.new (λ r w. opened r size (closed r size w)) }
    {
        self.close(size);
        self.open(size);
    }

    /// The alternate filter of a size: closings and openings of the sizes up to it, in turn.
    fn alternate(&mut self, size: u32)
        ensures { ChangesByFilter K.operations self.old self.new (λ r. alternated r size) }
    {
        for s in 1..=size {
            self.close_and_open(s);
        }
    }

    /// The filter, whatever its family.
    fn transform(&mut self, filter: Filter)
        ensures { ChangesByFilter K.operations self.old self.new (λ r. filter_by r filter.family filter.size) }
    {
        let size = filter.size;
        // A match, since families are data that a caller brings: a closure for each would say no more than its arm.
        match filter.family {
            Family::Dilation => self.rounds::<Joins, Joins>(size),
            Family::Erosion => self.rounds::<Meets, Meets>(size),
            Family::Opening => self.open(size),
            Family::Closing => self.close(size),
            Family::Alternate => self.alternate(size),
        }
    }
}

impl Filter {
    /// Filters the weights of a graph in place. Scratch may hold anything; it is all lowest afterwards.
    ///
    /// Refused where a buffer has the wrong length, then where the size is not 1 to 200; then every buffer is as it was.
    pub fn apply<K: Kind>(
        self,
        graph: &Graph,
        weights: WeightsMut<'_, '_, K>,
        scratch: WeightsMut<'_, '_, K>,
    ) -> Result<(), Refusal>
        ensures { outcome (answer result) (weights_after weights.exit) (weights_after scratch.exit) ≡ filter_call K.operations (shape_of graph.now) self (weights_before weights.entry) (weights_before scratch.entry) }
    {
        let WeightsMut { vertices, edges } = weights;
        let WeightsMut {
            vertices: vertex_scratch,
            edges: edge_scratch,
        } = scratch;
        if !both_fit(graph, vertices, edges, vertex_scratch, edge_scratch) {
            return Err(Refusal::WeightBufferLength);
        }
        if self.size < 1 || self.size > 200 {
            return Err(Refusal::StepSize);
        }
        let mut work = Work {
            graph: *graph,
            vertices,
            edges,
            scratch: vertex_scratch,
        };
        work.transform(self);
        fill(vertex_scratch, K::lowest());
        fill(edge_scratch, K::lowest());
        Ok(())
    }
}
