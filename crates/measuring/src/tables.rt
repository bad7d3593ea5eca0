//! The edges of a mesh.

ghost use Rattle.std.specs.Prelude.{◌≡◌, ◌*◌, IfOk, OnOk};
ghost use Rattle.measuring.specs.Meshes.{vertices_of, TableOf, edges_below, Drawing, DistinctDraws};

use crate::generator::Generator;
use crate::meshes::{Grid, Mesh, Random};
use anyhow::anyhow;
use graph::Edge;
use std::alloc::Global;

impl Mesh {
    /// How many vertices there are.
    pub fn order(self) -> usize
        ensures { result ≡ vertices_of self }
    {
        match self {
            Mesh::Grid(grid) => grid.order() as usize,
            Mesh::Random(random) => random.n as usize,
        }
    }

    /// The edge table, unless there is no memory for it.
    ///
    /// That of a grid has for each vertex in turn the edge to the right and then the one down, where there are such. That of a random
    /// mesh has the distinct edges of as many draws as it takes, sorted.
    pub fn edges(self, heap: Global) -> anyhow::Result<Vec<Edge>>
        ensures { IfOk result (λ table. TableOf self table.items) }
    {
        match self {
            Mesh::Grid(grid) => grid.edges(heap),
            Mesh::Random(random) => random.edges(heap),
        }
    }
}

impl Grid {
    /// How many vertices there are.
    fn order(self) -> u32
        ensures { result ≡ self.width * self.height }
    {
        self.width * self.height
    }

    /// The edges, sorted: those of each vertex in turn, to the right and then down.
    fn edges(self, heap: Global) -> anyhow::Result<Vec<Edge>>
        ensures { IfOk result (λ table. table.items ≡ edges_below self.width self.height (self.width * self.height)) }
    {
        let Grid { width, height } = self;
        let mut edges = Vec::new(heap);
        for first in 0..self.order() {
            if first % width + 1 < width {
                edges.push(Edge {
                    first,
                    second: first + 1,
                })?;
            }
            if first / width + 1 < height {
                edges.push(Edge {
                    first,
                    second: first + width,
                })?;
            }
        }
        Ok(edges)
    }
}

impl Random {
    // A loop whose draws have no measure is kept as a `for` to `u64::MAX`, since every loop is proved to end.

    /// Adds edges until there are `m`, repeated ones among them. A draw of two equal ends adds none.
    fn draw(self, edges: &mut Vec<Edge>, generator: &mut Generator) -> anyhow::Result<()>
        requires { Drawing self generator.old.state edges.old.items }
        ensures { OnOk result (Drawing self generator.new.state edges.new.items) }
    {
        for _ in 0..u64::MAX {
            if edges.len() >= self.m as usize {
                break;
            }
            let a = generator.below(self.n);
            let b = generator.below(self.n);
            if a != b {
                edges.push(Edge {
                    first: a.min(b),
                    second: a.max(b),
                })?;
            }
        }
        Ok(())
    }

    /// So many distinct edges by the generator, sorted.
    fn edges(self, heap: Global) -> anyhow::Result<Vec<Edge>>
        ensures { IfOk result (λ table. DistinctDraws self table.items) }
    {
        let mut generator = Generator::new(self.seed);
        let mut edges = Vec::new(heap);
        for _ in 0..u64::MAX {
            if edges.len() >= self.m as usize {
                return Ok(edges);
            }
            self.draw(&mut edges, &mut generator)?;
            edges.sort()?;
            edges.dedup();
        }
        Err(anyhow!("the generator found too few edges"))
    }
}
