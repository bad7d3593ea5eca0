//! The graphs to measure on.

ghost use Rattle.std.specs.Prelude.{◌*◌, ◌≤◌};

/// A graph, as the arguments name it.
#[derive(Clone, Copy)]
pub enum Mesh {
    /// The vertices in rows, each joined to the next in its row and to the one below it.
    Grid(Grid),
    /// Edges between vertices, by the generator.
    Random(Random),
}

/// A grid of 1 to 1,000,000 vertices.
#[derive(Clone, Copy)]
pub struct Grid {
    pub(crate) width: u32,
    pub(crate) height: u32,
    ghost some: { 1 ≤ width },
    ghost narrow: { width ≤ 1000000 },
    ghost small: { width * height ≤ 1000000 },
}

/// Edges between 2 to 1,000,000 vertices by the generator, so few that it soon finds them.
#[derive(Clone, Copy)]
pub struct Random {
    pub(crate) n: u32,
    pub(crate) m: u32,
    pub(crate) seed: u64,
    ghost some: { 2 ≤ n },
    ghost few: { n ≤ 1000000 },
    ghost short: { m ≤ 4000000 },
}
