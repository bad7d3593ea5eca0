//! The records of levels.

ghost use Rattle.std.specs.Prelude.{◌≡◌, length, ◌==◌, refl};
ghost use Rattle.std.proofs.Common.{sym, arith, rules};
ghost use Rattle.lattice.specs.Records.{parsed_level, level_record, recorded, bytes_of};
ghost use Rattle.lattice.specs.Decoded.{level_read};

use crate::kinds::Kind;
use crate::levels::Level;
use crate::records::{Stored, write_record};

/// Two bytes, the low one first.
impl Stored for Level {
    const WIDTH: usize = 2;

    ghost WIDTH = { 2 };

    ghost parsed = { parsed_level };

    ghost written = { level_record };

    ghost narrow = { Prim.search rules };

    ghost sized = { Prim.search rules };

    ghost read_back = { λ x. sym (level_read x (bytes_of 2 x.value) refl (omega (arith, x.fits))) };

    ghost whole = { Prim.search rules };

    fn decode(bytes: &[u8]) -> Option<Level>
        ensures { result ≡ parsed_level bytes.now }
    {
        let record = <[u8; 2]>::try_from(bytes).ok()?;
        Some(Level::new(u16::from_le_bytes(record)))
    }

    fn encode(self, bytes: &mut [u8]) -> bool
        ensures fits { result ≡ (length bytes.old == 2) }
        ensures bytes { bytes.new ≡ recorded 2 (level_record self) bytes.old }
    {
        write_record(&self.value().to_le_bytes(), bytes)
    }
}
