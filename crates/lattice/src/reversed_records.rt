//! The records of reversals.

ghost use Rattle.std.specs.Prelude.{◌≡◌, length, ◌==◌};
ghost use Rattle.lattice.specs.Records.{recorded, reversed_option};
ghost use Rattle.std.proofs.Common.{rules};

use crate::kinds::Kind;
use crate::records::Stored;
use crate::reversal::Reversed;

/// The record of the kind that is reversed.
impl<K: Stored> Stored for Reversed<K> {
    const WIDTH: usize = K::WIDTH;

    ghost WIDTH = { K.Stored.WIDTH };

    ghost parsed = { λ bs. reversed_option (K.Stored.parsed bs) };

    ghost written = { λ x. K.Stored.written x.inner };

    ghost narrow = { Prim.search rules };

    ghost sized = { Prim.search rules };

    ghost read_back = { Prim.search rules };

    ghost whole = { Prim.search rules };

    fn decode(bytes: &[u8]) -> Option<Self>
        ensures { result ≡ reversed_option (K.Stored.parsed bytes.now) }
    {
        K::decode(bytes).map(|inner| Reversed { inner })
    }

    fn encode(self, bytes: &mut [u8]) -> bool
        ensures fits { result ≡ (length bytes.old == K.Stored.WIDTH) }
        ensures bytes { bytes.new ≡ recorded K.Stored.WIDTH (K.Stored.written self.inner) bytes.old }
    {
        self.inner.encode(bytes)
    }
}
