//! Kinds whose values are stored as records of bytes, the low byte first.

ghost use Rattle.std.specs.Prelude.{◌≡◌, ℕ, ◌≤◌, false, List, length, Some, None, Option, ◌==◌};
ghost use Rattle.lattice.specs.Records.{recorded};

use crate::kinds::Kind;

/// A kind with a record of bytes for each value. A value that is written and read is the same value.
pub trait Stored: Kind {
    /// How many bytes a record has: 1 to 8.
    const WIDTH: usize;

    ghost WIDTH: { ℕ };

    /// The value that bytes stand for, where they stand for one.
    ghost parsed: { List ℕ → Option Self };

    /// The record of a value.
    ghost written: { Self → List ℕ };

    /// How many bytes a record has: [`Stored::WIDTH`].
    fn record_size() -> usize
        ensures { result ≡ WIDTH }
    {
        Self::WIDTH
    }

    /// The value that the bytes stand for. Bytes of another length than a record's stand for none.
    fn decode(bytes: &[u8]) -> Option<Self>
        ensures { result ≡ parsed bytes.now };

    // The answer is a yes or a no and not a `Result`: there is one reason for a no, and no value beside it.
    /// Writes the record of this value to the bytes and answers yes. Bytes of another length than a record's are left as they
    /// are, and the answer is no.
    fn encode(self, bytes: &mut [u8]) -> bool
        ensures fits { result ≡ (length bytes.old == WIDTH) }
        ensures bytes { bytes.new ≡ recorded WIDTH (written self) bytes.old };

    ghost narrow: { (1 ≤ WIDTH) × (WIDTH ≤ 8) };

    ghost sized: { (x : Self) → length (written x) ≡ WIDTH };

    ghost read_back: { (x : Self) → parsed (written x) ≡ Some x };

    ghost whole: { (bytes : List ℕ) → (length bytes == WIDTH) ≡ false → parsed bytes ≡ None };
}

// What the kinds share in writing is this function. The rest of each `impl` is its own width and its own number, so that one macro or
// generic number for all would be no shorter.
/// Writes a record to the bytes and answers yes. Bytes of another length than the record's are left as they are, and the answer
/// is no.
pub(crate) fn write_record<const N: usize>(content: &[u8; N], bytes: &mut [u8]) -> bool
    ensures fits { result ≡ (length bytes.old == N) }
    ensures bytes { bytes.new ≡ recorded N content.now bytes.old }
{
    if bytes.len() != N {
        return false;
    }
    bytes.copy_from_slice(content);
    true
}
