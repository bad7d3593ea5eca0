//! Memory for the weights of a graph, owned by the program that lends it.

ghost use Rattle.std.specs.Prelude.{◌≡◌, IfOk, OnOk};
ghost use Rattle.filters.specs.Weightings.{weights_before, weights_in};
ghost use Rattle.buffers.specs.Memories.{held, lowest_weights};

use filters::{Weights, WeightsMut};
use lattice::Kind;
use std::alloc::{AllocError, Global};

/// Memory for the weights of a graph.
#[derive(Drop)]
pub struct Buffers<K> {
    pub vertices: Vec<K>,
    pub edges: Vec<K>,
}

impl<K: Kind> Buffers<K> {
    /// The weights of `n` vertices and `m` edges, all lowest, unless there is no memory for them.
    pub fn lowest(heap: Global, n: usize, m: usize) -> Result<Buffers<K>, AllocError>
        ensures { IfOk result (λ b. held b ≡ lowest_weights K.operations n m) }
    {
        let mut vertices = Vec::new(heap);
        vertices.resize(n, K::lowest())?;
        let mut edges = Vec::new(heap);
        edges.resize(m, K::lowest())?;
        Ok(Buffers { vertices, edges })
    }

    /// The weights, to be read.
    pub fn weights(&self) -> Weights<'_, '_, K>
        ensures { weights_in result ≡ held self.now }
    {
        Weights {
            vertices: &self.vertices,
            edges: &self.edges,
        }
    }

    /// The weights, for a call to work on.
    pub fn lend(&mut self) -> WeightsMut<'_, '_, K>
        ensures { weights_before result ≡ held self.old }
    {
        WeightsMut {
            vertices: &mut self.vertices,
            edges: &mut self.edges,
        }
    }

    /// Makes the weights those of the other, unless there is no memory for them.
    pub fn copy_from(&mut self, other: &Buffers<K>) -> Result<(), AllocError>
        ensures { OnOk result (held self.new ≡ held other.now) }
    {
        self.vertices.clear();
        self.vertices.extend_from_slice(other.vertices.as_slice())?;
        self.edges.clear();
        self.edges.extend_from_slice(other.edges.as_slice())?;
        Ok(())
    }
}
