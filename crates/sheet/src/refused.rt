//! What a refused call of a sheet hands back.

ghost use Rattle.std.specs.Prelude.{◌≡◌};

use refusal::Refusal;

/// A refusal that hands the sheet back in its old state.
#[derive(Drop)]
pub struct Refused<S> {
    /// The sheet, as it was.
    pub sheet: S,
    /// Why the call was refused.
    pub why: Refusal,
}

impl<S: Drop> From<Refused<S>> for Refusal {
    ghost from_gives = { λ refused r. r ≡ refused.why };

    fn from(refused: Refused<S>) -> Refusal {
        refused.why
    }
}
