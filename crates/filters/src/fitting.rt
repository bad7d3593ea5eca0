//! Whether buffers are as long as a graph asks.

ghost use Rattle.std.specs.Prelude.{◌≡◌, ◌&&◌};
ghost use Rattle.graph.specs.Shapes.{shape_of};
ghost use Rattle.filters.specs.Weightings.{weighting, fits};

use graph::Graph;

/// Whether there are as many weights as the graph has vertices and edges.
// Kept with single slices, here and below, since callers hold them taken apart.
pub fn fits<K>(graph: &Graph, vertices: &[K], edges: &[K]) -> bool
    ensures { result ≡ fits (shape_of graph.now) (weighting vertices.now edges.now) }
{
    vertices.len() == graph.order() && edges.len() == graph.edges().len()
}

/// Whether two pairs of buffers, such as weights and scratch, are both as long as the graph asks.
pub fn both_fit<K, L>(
    graph: &Graph,
    vertices: &[K],
    edges: &[K],
    other_vertices: &[L],
    other_edges: &[L],
) -> bool
    ensures { result ≡ (fits (shape_of graph.now) (weighting vertices.now edges.now) && fits (shape_of graph.now) (weighting other_vertices.now other_edges.now)) }
{
    fits(graph, vertices, edges) && fits(graph, other_vertices, other_edges)
}
