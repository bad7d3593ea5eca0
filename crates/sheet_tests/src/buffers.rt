// All buffers of a sheet of the path, and which of them a call is given one place too short.

use filters::WeightsMut;
use lattice::Kind;

// A weight for each vertex and edge.
#[derive(Clone, Copy, PartialEq, Debug)]
pub struct Pair<K> {
    pub vertices: [K; 5],
    pub edges: [K; 4],
}

impl<K: Kind> Pair<K> {
    // This weight at every place.
    pub(crate) fn all(weight: K) -> Pair<K> {
        Pair {
            vertices: [weight; 5],
            edges: [weight; 4],
        }
    }

    // Both buffers, the one that is to be short without its last place.
    pub(crate) fn lend(
        &mut self,
        short: Option<Short>,
        vertices: Short,
        edges: Short,
    ) -> WeightsMut<'_, '_, K> {
        let all_vertices = &mut self.vertices;
        let all_edges = &mut self.edges;
        WeightsMut {
            vertices: cut_short(&mut all_vertices[..], short == Some(vertices)),
            edges: cut_short(&mut all_edges[..], short == Some(edges)),
        }
    }
}

#[derive(Clone, Copy, PartialEq, Debug)]
pub struct Buffers<K> {
    pub weights: Pair<K>,
    pub scratch: Pair<K>,
    pub held: Pair<K>,
}

// These weights, with the highest value in all other buffers.
pub(crate) fn weights_alone<K: Kind>(weights: ([K; 5], [K; 4])) -> Buffers<K> {
    let (vertices, edges) = weights;
    Buffers {
        weights: Pair { vertices, edges },
        scratch: Pair::all(K::highest()),
        held: Pair::all(K::highest()),
    }
}

// These weights and held weights, with the lowest value in scratch.
pub(crate) fn with_held<K: Kind>(weights: ([K; 5], [K; 4]), held: ([K; 5], [K; 4])) -> Buffers<K> {
    let (vertices, edges) = weights;
    let (held_vertices, held_edges) = held;
    Buffers {
        weights: Pair { vertices, edges },
        scratch: Pair::all(K::lowest()),
        held: Pair {
            vertices: held_vertices,
            edges: held_edges,
        },
    }
}

// The buffer that is short.
#[derive(Clone, Copy, PartialEq, Debug)]
pub enum Short {
    Vertices,
    Edges,
    VertexScratch,
    EdgeScratch,
    HeldVertices,
    HeldEdges,
}

// The buffer, without its last place where it is to be short.
fn cut_short<K>(buffer: &mut [K], short: bool) -> &mut [K] {
    match buffer.len().checked_sub(1) {
        Some(last) if short => &mut buffer[..last],
        _ => buffer,
    }
}
