//! The cut of presences.

ghost use Rattle.std.specs.Prelude.{◌≡◌, ℕ};
ghost use Rattle.std.proofs.Common.{sym, ◌∙◌, arith};
ghost use Rattle.refusal.specs.Reports.{answer};
ghost use Rattle.readings.specs.Cuts.{cut_at, cut_call, map_answer, lowest_presence};
ghost use Rattle.lattice.specs.Presences.{presence_below, presence_leq};
ghost use Rattle.lattice.specs.declared.presences.Presence.TheVariants.{Present};
ghost use Rattle.lattice.specs.ChainLaws.{presence_total};
ghost use Rattle.readings.specs.CutLaws.{cut_morphism};
ghost use Rattle.lattice.specs.KindLaws.{presence_lattice};

use crate::cuts::cut;
use crate::readings::Reading;
use lattice::{Kind, Presence};
use refusal::Refusal;

/// The cut of presences at present, the only one.
#[derive(Clone, Copy)]
pub struct PresenceCut {
    threshold: Presence,
    ghost raised: { threshold ≡ Present },
}

impl PresenceCut {
    /// The cut at the threshold. Refuses absent, the lowest presence, by 17.
    pub fn new(threshold: Presence) -> Result<PresenceCut, Refusal>
        ensures { map_answer (λ f. f.threshold) (answer result) ≡ cut_call lowest_presence threshold }
    {
        match threshold {
            Presence::Absent => Err(Refusal::NotAReading),
            Presence::Present => Ok(PresenceCut { threshold }),
        }
    }

    /// The presence at which it cuts.
    pub fn threshold(self) -> Presence
        ensures { result ≡ self.threshold }
    {
        self.threshold
    }
}

impl Reading for PresenceCut {
    type Source = Presence;

    type Target = Presence;

    ghost image = { λ f. cut_at presence_leq f.threshold };

    ghost morphism = { λ f.
        cut_morphism presence_lattice presence_total f.threshold
        (λ e. let apart = sym f.raised ∙ e in let z : ◌≡◌ {A = ℕ} 0 1 = cc in omega arith) };

    fn read(&self, weight: Presence) -> Presence
        ensures value { result ≡ cut_at presence_leq self.now.threshold weight }
        ensures same { result ≡ weight }
        ensures exact { (result ≡ Present → presence_below self.now.threshold weight) × (presence_below self.now.threshold weight → result ≡ Present) }
    {
        cut(self.threshold, weight)
    }
}
