//! Class picks: a set is read as present where the class is in it.

ghost use Rattle.std.specs.Prelude.{◌≡◌, ◌<◌, true};
ghost use Rattle.refusal.specs.Reports.{answer};
ghost use Rattle.lattice.specs.ClassSets.{has_class};
ghost use Rattle.lattice.specs.declared.presences.Presence.TheVariants.{Present};
ghost use Rattle.readings.specs.Cuts.{pick_of, pick_call, map_answer};
ghost use Rattle.readings.specs.CutLaws.{pick_morphism};

use crate::readings::Reading;
use lattice::{Classes, Kind, Presence};
use refusal::Refusal;

/// The class pick of one of the classes 0 to 31: it tells whether the class is in a set.
#[derive(Clone, Copy)]
pub struct ClassPick {
    class: u8,
    ghost within: { class < 32 },
}

impl ClassPick {
    /// The pick of the class. Refuses a class above 31 by 17.
    pub fn new(class: u8) -> Result<ClassPick, Refusal>
        ensures { map_answer (λ f. f.class) (answer result) ≡ pick_call class }
    {
        if class >= 32 {
            return Err(Refusal::NotAReading);
        }
        Ok(ClassPick { class })
    }

    /// The class that it picks.
    pub fn class(self) -> u8
        ensures { result ≡ self.class }
    {
        self.class
    }
}

impl Reading for ClassPick {
    type Source = Classes;

    type Target = Presence;

    ghost image = { λ f. pick_of f.class };

    ghost morphism = { λ f. pick_morphism f.class f.within };

    fn read(&self, weight: Classes) -> Presence
        ensures value { result ≡ pick_of self.now.class weight }
        ensures exact { (result ≡ Present → has_class self.now.class weight ≡ true) × (has_class self.now.class weight ≡ true → result ≡ Present) }
    {
        Presence::from(weight.has(self.class))
    }
}
