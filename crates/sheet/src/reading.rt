//! Reading a sheet, and what holds of every story.

ghost use Rattle.std.specs.Prelude.{◌≡◌};
ghost use Rattle.refusal.specs.Reports.{answer};
ghost use Rattle.filters.specs.Weightings.{weights_in, weights_before, weights_after};
ghost use Rattle.stories.specs.Calls.{reads, read_call};
ghost use Rattle.sheet.specs.States.{sheet_shape};
ghost use Rattle.stories.specs.Statements.{CallsAnswered, RefusalsChangeNothing, RunsGoWordByWord, StoriesCommute, StoriesAdjoint, StoriesAbsorb};

use crate::states::Sheet;
use calls::read_weights;
use filters::{Weights, WeightsMut};
use lattice::Kind;
use readings::Reading;
use refusal::Refusal;
use stories::{stories_commute, story_laws};

impl<'g, 'e, K: Kind, S> Sheet<'g, 'e, K, S> {
    /// Writes the reading of each weight to buffers of the other kind, in either state; the weights stay as they are.
    ///
    /// Refused where a buffer has the wrong length (7); then every buffer is as it was.
    ///
    /// Its contract also has what every story of calls owes, for this kind and reading: each call is answered and a refused one
    /// changes nothing; a run does what the calls of its words do; (a) to read and then run a story is to run it and then read, with the same answers; (b) dilation and
    /// erosion of what stories leave are adjoint; (c) openings absorb to the largest, closings likewise, and alternate filters of
    /// sizes that never fall to the last.
    pub fn read<R: Reading<Source = K>>(
        &self,
        reading: &R,
        weights: Weights<'_, '_, K>,
        images: WeightsMut<'_, '_, R::Target>,
    ) -> Result<(), Refusal>
        ensures read { reads (answer result) (weights_after images.exit) ≡ read_call (R.image reading.now) (sheet_shape self.now) (weights_in weights.entry) (weights_before images.entry) }
        ensures answered { CallsAnswered K.Kind.operations × CallsAnswered R.Target.Kind.operations }
        ensures unchanged { RefusalsChangeNothing K.Kind.operations × RefusalsChangeNothing R.Target.Kind.operations }
        ensures word_by_word { RunsGoWordByWord K.Kind.operations × RunsGoWordByWord R.Target.Kind.operations }
        ensures commute { StoriesCommute K.Kind.operations R.Target.Kind.operations (R.image reading.now) }
        ensures adjoint { StoriesAdjoint K.Kind.below K.Kind.operations × StoriesAdjoint R.Target.Kind.below R.Target.Kind.operations }
        ensures absorb { StoriesAbsorb K.Kind.operations × StoriesAbsorb R.Target.Kind.operations }
    {
        story_laws::<K>();
        story_laws::<R::Target>();
        stories_commute(reading);
        // Taken apart first, since a parameter that holds a `&mut` slice cannot be passed on to a call.
        let WeightsMut { vertices, edges } = images;
        read_weights(self.graph, reading, weights, WeightsMut { vertices, edges })
    }
}
