//! The records of class sets.

ghost use Rattle.std.specs.Prelude.{◌≡◌, length, ◌==◌, refl};
ghost use Rattle.std.proofs.Common.{sym, arith, rules};
ghost use Rattle.lattice.specs.Records.{parsed_classes, classes_record, recorded, bytes_of};
ghost use Rattle.lattice.specs.Decoded.{classes_read};

use crate::class_sets::Classes;
use crate::kinds::Kind;
use crate::records::{Stored, write_record};

/// Four bytes, the low one first; bit k for class k.
impl Stored for Classes {
    const WIDTH: usize = 4;

    ghost WIDTH = { 4 };

    ghost parsed = { parsed_classes };

    ghost written = { classes_record };

    ghost narrow = { Prim.search rules };

    ghost sized = { Prim.search rules };

    ghost read_back = { λ x. sym (classes_read x (bytes_of 4 x.bits) refl (omega (arith, x.fits))) };

    ghost whole = { Prim.search rules };

    fn decode(bytes: &[u8]) -> Option<Classes>
        ensures { result ≡ parsed_classes bytes.now }
    {
        let record = <[u8; 4]>::try_from(bytes).ok()?;
        Some(Classes::from_bits(u32::from_le_bytes(record)))
    }

    fn encode(self, bytes: &mut [u8]) -> bool
        ensures fits { result ≡ (length bytes.old == 4) }
        ensures bytes { bytes.new ≡ recorded 4 (classes_record self) bytes.old }
    {
        write_record(&self.bits().to_le_bytes(), bytes)
    }
}
