//! What every graph keeps.

ghost use Rattle.graph.specs.Shapes.{shape_of, Accepted};

use crate::graphs::Graph;

impl<'a> Graph<'a> {
    /// Shows that this graph is an accepted one, as every graph is. The laws of filters and of stories ask this of a graph and nothing
    /// else.
    pub fn keeps_facts(&self)
        ensures { Accepted (shape_of self.now) }
    {}
}
