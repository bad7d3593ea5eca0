//! One filter on the weights of a sheet.

ghost use Rattle.std.specs.Prelude.{◌≡◌};
ghost use Rattle.refusal.specs.Reports.{answer};
ghost use Rattle.filters.specs.Calls.{outcome, filter_call};
ghost use Rattle.filters.specs.Weightings.{weights_before, weights_after};
ghost use Rattle.sheet.specs.States.{sheet_shape};
ghost use Rattle.stories.specs.Statements.{CallsAnswered, RefusalsChangeNothing, RunsGoWordByWord, StoriesAdjoint, StoriesAbsorb};

use crate::states::Sheet;
use filters::{Filter, WeightsMut};
use lattice::Kind;
use refusal::Refusal;
use stories::story_laws;

impl<'g, 'e, K: Kind, S> Sheet<'g, 'e, K, S> {
    /// Applies one filter to the weights, in either state. Scratch may hold anything; it is all lowest afterwards.
    ///
    /// Refused where a buffer has the wrong length (7), then where the size is not 1 to 200 (11); then every buffer is as it was.
    ///
    /// Its contract also has what every story of calls owes, for this kind and with no reading: each call is answered and a refused
    /// one changes nothing; a run does what the calls of its words do; dilation and erosion of what stories leave are adjoint;
    /// openings absorb to the largest, closings likewise, and alternate filters of sizes that never fall to the last.
    pub fn step(
        &self,
        filter: Filter,
        weights: WeightsMut<'_, '_, K>,
        scratch: WeightsMut<'_, '_, K>,
    ) -> Result<(), Refusal>
        ensures step { outcome (answer result) (weights_after weights.exit) (weights_after scratch.exit) ≡ filter_call K.operations (sheet_shape self.now) filter (weights_before weights.entry) (weights_before scratch.entry) }
        ensures answered { CallsAnswered K.operations }
        ensures unchanged { RefusalsChangeNothing K.operations }
        ensures word_by_word { RunsGoWordByWord K.operations }
        ensures adjoint { StoriesAdjoint K.below K.operations }
        ensures absorb { StoriesAbsorb K.operations }
    {
        story_laws::<K>();
        // Taken apart first, since a parameter that holds a `&mut` slice cannot be passed on to a call.
        let WeightsMut { vertices, edges } = weights;
        let WeightsMut {
            vertices: vertex_scratch,
            edges: edge_scratch,
        } = scratch;
        let scratch = WeightsMut {
            vertices: vertex_scratch,
            edges: edge_scratch,
        };
        filter.apply(self.graph, WeightsMut { vertices, edges }, scratch)
    }
}
