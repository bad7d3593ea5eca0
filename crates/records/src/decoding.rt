//! Values from records that stand one after the other.

ghost use Rattle.std.specs.Prelude.{◌≡◌, ◌+◌, ◌*◌, ◌<◌, ◌≤◌, length};
ghost use Rattle.records.specs.Formats.{format, value_at, value_or, values};

use lattice::{Kind, Stored};

/// The value that record i stands for. An edge reads the records of its ends so, which may stand anywhere.
pub(crate) fn decode_at<K: Stored>(records: &[u8], i: usize) -> Option<K>
    requires { i * K.Stored.WIDTH + K.Stored.WIDTH ≤ length records.now }
    ensures { result ≡ value_at (format K.Stored.WIDTH K.Stored.parsed) records.now i }
{
    let width = K::record_size();
    let start = i * width;
    K::decode(&records[start..start + width])
}

/// The value that a record stands for, or the lowest where it stands for none.
fn decode_or_lowest<K: Stored>(bytes: &[u8]) -> K
    ensures { result ≡ value_or K.Kind.operations.lowest (K.Stored.parsed bytes.now) }
{
    K::decode(bytes).unwrap_or(K::lowest())
}

/// Writes the value of each record to its weight.
pub(crate) fn decode_all<K: Stored>(records: &[u8], weights: &mut [K])
    requires { length records.now ≡ length weights.old * K.Stored.WIDTH }
    ensures { weights.new ≡ values (format K.Stored.WIDTH K.Stored.parsed) K.Kind.operations.lowest (length weights.old) records.now }
{
    // Each weight is written by its place, since no proof is found of what a loop over a zip with `iter_mut` leaves in the weights.
    for (i, record) in records.chunks_exact(K::record_size()).enumerate() {
        weights[i] = decode_or_lowest(record);
    }
}
