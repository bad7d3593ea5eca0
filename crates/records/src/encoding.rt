//! Records of values, one after the other.

ghost use Rattle.std.specs.Prelude.{◌≡◌, ◌+◌, ◌*◌, ◌≤◌, length};
ghost use Rattle.std.specs.List.{flat_map};
ghost use Rattle.records.specs.Formats.{with_record};

use lattice::Stored;

/// Writes the record of a value as record i.
fn encode_at<K: Stored>(value: K, records: &mut [u8], i: usize)
    requires { i * K.Stored.WIDTH + K.Stored.WIDTH ≤ length records.old }
    ensures { records.new ≡ with_record K.Stored.WIDTH records.old i (K.Stored.written value) }
{
    let width = K::record_size();
    let start = i * width;
    value.encode(&mut records[start..start + width]);
}

/// Writes the records of the weights, one after the other.
pub(crate) fn encode_all<K: Stored>(weights: &[K], records: &mut [u8])
    requires { length records.old ≡ length weights.now * K.Stored.WIDTH }
    ensures { records.new ≡ flat_map K.Stored.written weights.now }
{
    // Each record is written by its place, since no proof is found of what a loop over `chunks_exact_mut` leaves in the bytes.
    for (i, weight) in weights.iter().enumerate() {
        encode_at(*weight, records, i);
    }
}
