ghost use Rattle.std.specs.Prelude.{◌≡◌, ◌≤◌, [], length};
ghost use Rattle.graph.specs.Graphs.{AllWithin, Rising};

use crate::edges::Edge;

/// A graph whose vertices are 0 to n - 1, over its edge table.
///
/// Every value of this type has been accepted: there are at most 1,000,000 vertices and 4,000,000 edges, each edge's first end is
/// under its second and the second under n, and the edges rise strictly. A caller makes [`Graph::empty`] and has a judging call
/// put the graph into that place.
#[derive(Clone, Copy)]
pub struct Graph<'a> {
    pub(crate) n: usize,
    pub(crate) edges: &'a [Edge],
    ghost few: { n ≤ 1000000 },
    ghost short: { length edges.now ≤ 4000000 },
    ghost within: { AllWithin n edges.now },
    ghost rising: { Rising edges.now },
}

impl<'a> Graph<'a> {
    /// The graph without vertices.
    pub fn empty() -> Self
        ensures { (result.n ≡ 0) × (result.edges.now ≡ []) }
    {
        Graph { n: 0, edges: &[] }
    }

    /// How many vertices there are.
    pub fn order(&self) -> usize
        ensures { result ≡ self.now.n }
    {
        self.n
    }

    /// The edges in their order.
    pub fn edges(&self) -> &'a [Edge]
        ensures { result.now ≡ self.now.edges.now }
    {
        self.edges
    }
}
