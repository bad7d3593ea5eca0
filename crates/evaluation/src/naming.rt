//! Kinds from their names and numbers.

ghost use Rattle.std.specs.Prelude.{◌≡◌, ◌≤◌, MatchResult, ◌≢◌};
ghost use Rattle.std.specs.Result.{result_ok};
ghost use Rattle.evaluation.specs.Kinds.{Named, Numbered, base_name, base_width};
ghost use Rattle.evaluation.specs.declared.kinds.BaseKind.{BaseKind};

use crate::kinds::{BaseKind, KindName, UnknownKind};
use std::str::FromStr;

/// The kind with this name.
impl FromStr for BaseKind {
    type Err = UnknownKind;

    ghost from_str_gives = { λ name r. MatchResult r (λ base. name ≡ base_name base) (λ _. (base : BaseKind) → name ≢ base_name base) };

    fn from_str(name: &str) -> Result<BaseKind, UnknownKind> {
        match name {
            "presence" => Ok(BaseKind::Presence),
            "level" => Ok(BaseKind::Level),
            "classes" => Ok(BaseKind::Classes),
            _ => Err(UnknownKind),
        }
    }
}

/// The kind that a text names: `presence`, `level` or `classes`, with `reversed-` in front any number of times.
impl FromStr for KindName {
    type Err = UnknownKind;

    ghost from_str_gives = { λ text r. Named text (result_ok r) };

    fn from_str(text: &str) -> Result<KindName, UnknownKind> {
        let mut name = text;
        let mut reversed = false;
        while let Some(rest) = name.strip_prefix("reversed-") {
            name = rest;
            reversed = !reversed;
        }
        let base = name.parse::<BaseKind>()?;
        Ok(KindName { base, reversed })
    }
}

/// The kind with this number: 0 presence, 1 level, 2 classes, and 3 to 5 their reversals. The C interface numbers the kinds so.
impl TryFrom<u32> for KindName {
    type Error = UnknownKind;

    ghost try_from_gives = { λ number r. Numbered number (result_ok r) };

    fn try_from(number: u32) -> Result<KindName, UnknownKind> {
        let base = match number {
            0 | 3 => BaseKind::Presence,
            1 | 4 => BaseKind::Level,
            2 | 5 => BaseKind::Classes,
            _ => return Err(UnknownKind),
        };
        let reversed = number >= 3;
        Ok(KindName { base, reversed })
    }
}

impl KindName {
    /// How many bytes a record of the kind has.
    pub fn record_width(self) -> usize
        ensures size { result ≡ base_width self.base }
        ensures narrow { (1 ≤ result) × (result ≤ 4) }
    {
        match self.base {
            BaseKind::Presence => 1,
            BaseKind::Level => 2,
            BaseKind::Classes => 4,
        }
    }
}
