//! Recipe texts, run on the weights of a sheet.

ghost use Rattle.std.specs.Prelude.{◌≡◌};
ghost use Rattle.refusal.specs.Reports.{answer};
ghost use Rattle.filters.specs.Weightings.{weights_before, weights_after};
ghost use Rattle.recipe.specs.Contents.{recipe_words};
ghost use Rattle.stories.specs.Calls.{ran, run_call};
ghost use Rattle.sheet.specs.States.{sheet_shape};

use crate::states::{Clear, Sheet};
use calls::{Progress, Silent, run_recipe};
use filters::WeightsMut;
use lattice::Kind;
use recipe::Recipe;
use refusal::Refusal;

impl<'g, 'e, K: Kind> Sheet<'g, 'e, K, Clear> {
    /// Runs a recipe text on the weights, writes the recipe to its place, and tells after each word how many are done. Scratch and
    /// held buffers may hold anything; they are all lowest afterwards.
    ///
    /// Refused where a buffer has the wrong length (7), then as [`Recipe::read`] refuses the text; then every buffer and the
    /// place are as they were.
    pub fn run_with<P: Progress>(
        &self,
        text: &[u8],
        place: &mut Recipe,
        weights: WeightsMut<'_, '_, K>,
        scratch: WeightsMut<'_, '_, K>,
        held: WeightsMut<'_, '_, K>,
        progress: &mut P,
    ) -> Result<(), Refusal>
        ensures { ran (answer result) (weights_after weights.exit) (weights_after scratch.exit) (weights_after held.exit) (recipe_words place.new) ≡ run_call K.operations (sheet_shape self.now) text.now (weights_before weights.entry) (weights_before scratch.entry) (weights_before held.entry) (recipe_words place.old) }
    {
        // Taken apart first, here and below, since a parameter that holds a `&mut` slice cannot be passed on to a call.
        let WeightsMut { vertices, edges } = weights;
        let weights = WeightsMut { vertices, edges };
        let WeightsMut { vertices, edges } = scratch;
        let scratch = WeightsMut { vertices, edges };
        let WeightsMut { vertices, edges } = held;
        let held = WeightsMut { vertices, edges };
        run_recipe(self.graph, text, place, weights, scratch, held, progress)
    }

    /// Runs a recipe text on the weights and writes the recipe to its place. Scratch and held buffers may hold anything; they are
    /// all lowest afterwards.
    ///
    /// Refused where a buffer has the wrong length (7), then as [`Recipe::read`] refuses the text; then every buffer and the
    /// place are as they were.
    pub fn run(
        &self,
        text: &[u8],
        place: &mut Recipe,
        weights: WeightsMut<'_, '_, K>,
        scratch: WeightsMut<'_, '_, K>,
        held: WeightsMut<'_, '_, K>,
    ) -> Result<(), Refusal>
        ensures { ran (answer result) (weights_after weights.exit) (weights_after scratch.exit) (weights_after held.exit) (recipe_words place.new) ≡ run_call K.operations (sheet_shape self.now) text.now (weights_before weights.entry) (weights_before scratch.entry) (weights_before held.entry) (recipe_words place.old) }
    {
        let WeightsMut { vertices, edges } = weights;
        let weights = WeightsMut { vertices, edges };
        let WeightsMut { vertices, edges } = scratch;
        let scratch = WeightsMut { vertices, edges };
        let WeightsMut { vertices, edges } = held;
        let held = WeightsMut { vertices, edges };
        self.run_with(text, place, weights, scratch, held, &mut Silent)
    }
}
