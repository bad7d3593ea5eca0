//! The records of presences.

ghost use Rattle.std.specs.Prelude.{◌≡◌, length, ◌==◌};
ghost use Rattle.lattice.specs.Records.{parsed_presence, presence_record, recorded};
ghost use Rattle.std.proofs.Common.{rules};

use crate::kinds::Kind;
use crate::presences::Presence;
use crate::records::{Stored, write_record};

/// One byte: 0 is absent and 1 present.
impl Stored for Presence {
    const WIDTH: usize = 1;

    ghost WIDTH = { 1 };

    ghost parsed = { parsed_presence };

    ghost written = { presence_record };

    ghost narrow = { Prim.search rules };

    ghost sized = { Prim.search rules };

    ghost read_back = { Prim.search rules };

    ghost whole = { Prim.search rules };

    fn decode(bytes: &[u8]) -> Option<Presence>
        ensures { result ≡ parsed_presence bytes.now }
    {
        match bytes {
            [0] => Some(Presence::Absent),
            [1] => Some(Presence::Present),
            _ => None,
        }
    }

    fn encode(self, bytes: &mut [u8]) -> bool
        ensures fits { result ≡ (length bytes.old == 1) }
        ensures bytes { bytes.new ≡ recorded 1 (presence_record self) bytes.old }
    {
        write_record(&[self as u8], bytes)
    }
}
