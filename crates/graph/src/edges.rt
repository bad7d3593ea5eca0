ghost use Rattle.std.specs.Prelude.{◌≡◌, ◌+◌, ◌*◌, ◌^◌};
ghost use Rattle.graph.specs.Graphs.{before};

/// One row of an edge table: an edge by its two ends. Edges are ordered by first end, then by second.
#[derive(Clone, Copy, PartialEq, Eq, PartialOrd, Ord, Debug)]
#[repr(C)]
pub struct Edge {
    pub first: u32,
    pub second: u32,
}

impl Edge {
    /// Whether this edge comes before the other: by first end, then by second.
    pub fn is_before(self, other: Edge) -> bool
        ensures { result ≡ before self other }
    {
        self.number() < other.number()
    }

    /// Both ends as one number, whose order is that of the edges. Two such numbers are compared faster than two edges, part by part.
    fn number(self) -> u64
        ensures { result ≡ self.first * 2 ^ 32 + self.second }
    {
        u64::from(self.first) * (1 << 32) + u64::from(self.second)
    }
}
