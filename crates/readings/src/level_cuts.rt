//! The cuts of levels.

ghost use Rattle.std.specs.Prelude.{◌≡◌, ◌<◌, ◌≤◌};
ghost use Rattle.std.proofs.Common.{ap, arith};
ghost use Rattle.refusal.specs.Reports.{answer};
ghost use Rattle.readings.specs.Cuts.{cut_at, cut_call, map_answer, lowest_level};
ghost use Rattle.lattice.specs.Levels.{level_leq, level_number};
ghost use Rattle.lattice.specs.declared.presences.Presence.TheVariants.{Present};
ghost use Rattle.lattice.specs.ChainLaws.{level_total};
ghost use Rattle.readings.specs.CutLaws.{cut_morphism};
ghost use Rattle.lattice.specs.KindLaws.{level_lattice};

use crate::cuts::cut;
use crate::readings::Reading;
use lattice::{Kind, Level, Presence};
use refusal::Refusal;

/// A cut of the levels, at a threshold above 0.
#[derive(Clone, Copy)]
pub struct LevelCut {
    threshold: Level,
    ghost raised: { 0 < threshold.value },
}

impl LevelCut {
    /// The cut at the threshold. Refuses 0, the lowest level, by 17.
    pub fn new(threshold: Level) -> Result<LevelCut, Refusal>
        ensures { map_answer (λ f. f.threshold) (answer result) ≡ cut_call lowest_level threshold }
    {
        if threshold.value() == 0 {
            return Err(Refusal::NotAReading);
        }
        Ok(LevelCut { threshold })
    }

    /// The level at which it cuts.
    pub fn threshold(self) -> Level
        ensures { result ≡ self.threshold }
    {
        self.threshold
    }
}

impl Reading for LevelCut {
    type Source = Level;

    type Target = Presence;

    ghost image = { λ f. cut_at level_leq f.threshold };

    ghost morphism = { λ f. cut_morphism level_lattice level_total f.threshold (λ e. omega (arith, ap (λ x. x.value) e, f.raised)) };

    fn read(&self, weight: Level) -> Presence
        ensures value { result ≡ cut_at level_leq self.now.threshold weight }
        ensures exact { (result ≡ Present → level_number self.now.threshold ≤ level_number weight) × (level_number self.now.threshold ≤ level_number weight → result ≡ Present) }
    {
        cut(self.threshold, weight)
    }
}
