//! The weights to measure with.

ghost use Rattle.std.specs.Prelude.{◌≡◌, IfOk};
ghost use Rattle.graph.specs.Shapes.{shape_of};
ghost use Rattle.buffers.specs.Memories.{held};
ghost use Rattle.measuring.specs.Draws.{starting_levels};
ghost use Rattle.measuring.specs.Starts.{starting_weights};

use crate::generator::Generator;
use anyhow::anyhow;
use buffers::Buffers;
use filters::meet_to_edges;
use graph::Graph;
use lattice::{Kind, Level};
use std::alloc::Global;

/// The starting weights of a graph: those of the vertices by the generator, and each edge the meet of its ends.
pub fn starting_weights(heap: Global, graph: &Graph) -> anyhow::Result<Buffers<Level>>
    ensures { IfOk result (λ b. held b ≡ starting_weights (shape_of graph.now)) }
{
    let mut weights = Buffers {
        vertices: starting_vertices(heap, graph.order())?,
        edges: vec![in heap; Level::lowest(); graph.edges().len()]?,
    };
    meet_to_edges(graph, &weights.vertices, &mut weights.edges).map_err(|_| anyhow!(
        "a pass was refused"
    ))?;
    Ok(weights)
}

/// The starting weights of so many vertices.
fn starting_vertices(heap: Global, n: usize) -> anyhow::Result<Vec<Level>>
    ensures { IfOk result (λ v. v.items ≡ starting_levels n) }
{
    let mut generator = Generator::new(1);
    let mut vertices = Vec::new(heap);
    // Kept as a `for`, since no proof is found of what a chain collects whose closure changes the generator.
    for _ in 0..n {
        vertices.push(Level::new(generator.upper_bits()))?;
    }
    Ok(vertices)
}
