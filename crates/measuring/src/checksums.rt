//! Checksums of what a run wrote: 64-bit FNV-1a hashes.

ghost use Rattle.std.specs.Prelude.{◌≡◌};
ghost use Rattle.std.specs.List.{fold};
ghost use Rattle.measuring.specs.Checksums.{hash_byte, hash_level, checksum_of};

use lattice::Level;

/// The hash of no bytes.
const START: u64 = 14695981039346656037;

/// The checksum of levels: the hash of those of the vertices and then of the edges, two bytes each, the low one first.
pub fn checksum_levels(vertices: &[Level], edges: &[Level]) -> u64
    ensures { result ≡ checksum_of hash_level vertices.now edges.now }
{
    hash_levels(hash_levels(START, vertices), edges)
}

/// The checksum of records: the hash of those of the vertices and then of the edges.
pub fn checksum_records(vertices: &[u8], edges: &[u8]) -> u64
    ensures { result ≡ checksum_of hash_byte vertices.now edges.now }
{
    hash_bytes(hash_bytes(START, vertices), edges)
}

/// The hash after these levels, from the hash before them.
fn hash_levels(hash: u64, levels: &[Level]) -> u64
    ensures { result ≡ fold hash_level hash levels.now }
{
    levels.iter().fold(
        hash,
        |hash, level| hash_bytes(hash, &level.value().to_le_bytes()),
    )
}

/// The hash after these bytes, from the hash before them.
fn hash_bytes(hash: u64, bytes: &[u8]) -> u64
    ensures { result ≡ fold hash_byte hash bytes.now }
{
    bytes.iter().fold(
        hash,
        |hash, byte| (hash ^ u64::from(*byte)).wrapping_mul(1099511628211),
    )
}
