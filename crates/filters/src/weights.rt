//! Weight buffers that a call works on. Each field has a lifetime of its own, so that a caller can lend the buffers again.

/// The weights of a graph's vertices and edges, to be read.
#[derive(Drop)]
pub struct Weights<'v, 'e, K> {
    pub vertices: &'v [K],
    pub edges: &'e [K],
}

/// The weights of a graph's vertices and edges, to be changed.
#[derive(Drop)]
pub struct WeightsMut<'v, 'e, K> {
    pub vertices: &'v mut [K],
    pub edges: &'e mut [K],
}
