//! The cuts of reversed levels.

ghost use Rattle.std.specs.Prelude.{◌≡◌, ◌<◌, ◌≤◌};
ghost use Rattle.std.proofs.Common.{ap, arith};
ghost use Rattle.refusal.specs.Reports.{answer};
ghost use Rattle.readings.specs.Cuts.{cut_at, cut_call, map_answer, lowest_reversed_level};
ghost use Rattle.lattice.specs.Levels.{level_leq, level_number};
ghost use Rattle.lattice.specs.declared.presences.Presence.TheVariants.{Present};
ghost use Rattle.lattice.specs.ChainLaws.{level_total, reversed_total};
ghost use Rattle.readings.specs.CutLaws.{cut_morphism};
ghost use Rattle.lattice.specs.KindLaws.{level_lattice};
ghost use Rattle.lattice.specs.LatticesLemmas.{reversed_lattice};

use crate::cuts::cut;
use crate::readings::Reading;
use lattice::{Kind, Level, Presence, Reversed};
use refusal::Refusal;

/// A cut of the reversed levels, at a threshold under 65,535, which is the lowest of them.
#[derive(Clone, Copy)]
pub struct ReversedLevelCut {
    threshold: Reversed<Level>,
    ghost raised: { threshold.inner.value < 65535 },
}

impl ReversedLevelCut {
    /// The cut at the threshold. Refuses 65,535, the lowest reversed level, by 17.
    pub fn new(threshold: Reversed<Level>) -> Result<ReversedLevelCut, Refusal>
        ensures { map_answer (λ f. f.threshold) (answer result) ≡ cut_call lowest_reversed_level threshold }
    {
        if threshold.inner.value() == 65535 {
            return Err(Refusal::NotAReading);
        }
        Ok(ReversedLevelCut { threshold })
    }

    /// The reversed level at which it cuts.
    pub fn threshold(self) -> Reversed<Level>
        ensures { result ≡ self.threshold }
    {
        self.threshold
    }
}

impl Reading for ReversedLevelCut {
    type Source = Reversed<Level>;

    type Target = Presence;

    ghost image = { λ f. cut_at (λ x y. level_leq y.inner x.inner) f.threshold };

    ghost morphism = { λ f.
        cut_morphism (reversed_lattice level_lattice) (reversed_total level_total) f.threshold
        (λ e. omega (arith, ap (λ x. x.inner.value) e, f.raised)) };

    fn read(&self, weight: Reversed<Level>) -> Presence
        ensures value { result ≡ cut_at (λ x y. level_leq y.inner x.inner) self.now.threshold weight }
        ensures exact { (result ≡ Present → level_number weight.inner ≤ level_number self.now.threshold.inner) × (level_number weight.inner ≤ level_number self.now.threshold.inner → result ≡ Present) }
    {
        cut(self.threshold, weight)
    }
}
