//! Weights held beside those of a sheet.

ghost use Rattle.std.specs.Prelude.{◌≡◌};
ghost use Rattle.refusal.specs.Reports.{answer};
ghost use Rattle.filters.specs.Calls.{outcome};
ghost use Rattle.filters.specs.Weightings.{weights_in, weights_before, weights_after};
ghost use Rattle.stories.specs.Calls.{hold_call, join_call, meet_call, forget_call};
ghost use Rattle.sheet.specs.States.{sheet_shape, moved, graph_after};

use crate::refused::Refused;
use crate::states::{Clear, Holding, Sheet};
use calls::{combine_held, forget_held, hold_weights};
use filters::{Joins, Meets, Weights, WeightsMut};
use lattice::Kind;
use refusal::Refusal;

// That the graph stays is a clause of each transition, since it relates two sheets and is no fact of one.

impl<'g, 'e, K: Kind> Sheet<'g, 'e, K, Clear> {
    /// Copies the weights to the held buffers and turns the sheet Holding.
    ///
    /// Refused where a buffer has the wrong length (7); then every buffer is as it was, and the sheet comes back.
    pub fn hold(
        self,
        weights: Weights<'_, '_, K>,
        held: WeightsMut<'_, '_, K>,
    ) -> Result<Sheet<'g, 'e, K, Holding>, Refused<Self>>
        ensures buffers { outcome (moved result) (weights_in weights.entry) (weights_after held.exit) ≡ hold_call (sheet_shape self.entry) (weights_in weights.entry) (weights_before held.entry) }
        ensures sheet { graph_after result ≡ self.entry.graph }
    {
        // Taken apart first, here and below, since a parameter that holds a `&mut` slice cannot be passed on to a call.
        let WeightsMut { vertices, edges } = held;
        let said = hold_weights(self.graph, weights, WeightsMut { vertices, edges });
        self.settle(said)
    }
}

impl<'g, 'e, K: Kind> Sheet<'g, 'e, K, Holding> {
    // `join` and `meet` are one call of `combine_held` each: the two calls of a sheet keep their names.

    /// Puts at each place the join of its weight and the held one, clears the held buffers and turns the sheet Clear.
    ///
    /// Refused where a buffer has the wrong length (7); then every buffer is as it was, and the sheet comes back.
    pub fn join(
        self,
        weights: WeightsMut<'_, '_, K>,
        held: WeightsMut<'_, '_, K>,
    ) -> Result<Sheet<'g, 'e, K, Clear>, Refused<Self>>
        ensures buffers { outcome (moved result) (weights_after weights.exit) (weights_after held.exit) ≡ join_call K.operations (sheet_shape self.entry) (weights_before weights.entry) (weights_before held.entry) }
        ensures sheet { graph_after result ≡ self.entry.graph }
    {
        let WeightsMut { vertices, edges } = weights;
        let weights = WeightsMut { vertices, edges };
        let WeightsMut { vertices, edges } = held;
        let said = combine_held::<Joins, K>(self.graph, weights, WeightsMut { vertices, edges });
        self.settle(said)
    }

    /// Puts at each place the meet of its weight and the held one, clears the held buffers and turns the sheet Clear.
    ///
    /// Refused where a buffer has the wrong length (7); then every buffer is as it was, and the sheet comes back.
    pub fn meet(
        self,
        weights: WeightsMut<'_, '_, K>,
        held: WeightsMut<'_, '_, K>,
    ) -> Result<Sheet<'g, 'e, K, Clear>, Refused<Self>>
        ensures buffers { outcome (moved result) (weights_after weights.exit) (weights_after held.exit) ≡ meet_call K.operations (sheet_shape self.entry) (weights_before weights.entry) (weights_before held.entry) }
        ensures sheet { graph_after result ≡ self.entry.graph }
    {
        let WeightsMut { vertices, edges } = weights;
        let weights = WeightsMut { vertices, edges };
        let WeightsMut { vertices, edges } = held;
        let said = combine_held::<Meets, K>(self.graph, weights, WeightsMut { vertices, edges });
        self.settle(said)
    }

    /// Leaves the weights, clears the held buffers and turns the sheet Clear.
    ///
    /// Refused where a buffer has the wrong length (7); then every buffer is as it was, and the sheet comes back.
    pub fn forget(
        self,
        weights: Weights<'_, '_, K>,
        held: WeightsMut<'_, '_, K>,
    ) -> Result<Sheet<'g, 'e, K, Clear>, Refused<Self>>
        ensures buffers { outcome (moved result) (weights_in weights.entry) (weights_after held.exit) ≡ forget_call K.operations (sheet_shape self.entry) (weights_in weights.entry) (weights_before held.entry) }
        ensures sheet { graph_after result ≡ self.entry.graph }
    {
        let WeightsMut { vertices, edges } = held;
        let said = forget_held(self.graph, weights, WeightsMut { vertices, edges });
        self.settle(said)
    }
}

impl<'g, 'e, K, S> Sheet<'g, 'e, K, S> {
    /// The sheet in its next state where the call that was made is accepted; else the sheet as it was, with the refusal.
    fn settle<T>(self, said: Result<(), Refusal>) -> Result<Sheet<'g, 'e, K, T>, Refused<Self>>
        ensures said { moved result ≡ answer said }
        ensures sheet { graph_after result ≡ self.entry.graph }
    {
        // A match, since both answers take the sheet: `map` and `map_err` in turn would move it twice.
        match said {
            Ok(()) => Ok(self.into_state()),
            Err(why) => Err(Refused { sheet: self, why }),
        }
    }
}
