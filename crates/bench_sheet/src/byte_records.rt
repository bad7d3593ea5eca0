//! The records of weights.

use buffers::Buffers;
use filters::fill;
use lattice::{Kind, Level};
use std::alloc::Global;

/// Makes all weights lowest.
pub(crate) fn clear(weights: &mut Buffers<Level>) {
    fill(weights.vertices.as_mut_slice(), Level::lowest());
    fill(weights.edges.as_mut_slice(), Level::lowest());
}

/// The records of the weights of a graph.
#[derive(Drop)]
pub struct Records {
    pub vertices: Vec<u8>,
    pub edges: Vec<u8>,
}

impl Records {
    /// The records of weights, written byte by byte.
    pub(crate) fn of(heap: Global, weights: &Buffers<Level>) -> anyhow::Result<Records> {
        Ok(Records {
            vertices: bytes_of(heap, weights.vertices.as_slice())?,
            edges: bytes_of(heap, weights.edges.as_slice())?,
        })
    }

    /// Makes all bytes 0.
    pub(crate) fn clear(&mut self) {
        fill(self.vertices.as_mut_slice(), 0);
        fill(self.edges.as_mut_slice(), 0);
    }
}

/// Two bytes for each weight, the low one first.
fn bytes_of(heap: Global, weights: &[Level]) -> anyhow::Result<Vec<u8>> {
    let mut bytes = Vec::new(heap);
    for weight in weights {
        bytes.extend_from_slice(&weight.value().to_le_bytes())?;
    }
    Ok(bytes)
}
