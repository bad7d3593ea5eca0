//! The path sheet, the worked example: vertices 0 to 4, edges 0-1, 1-2, 2-3 and 3-4, Levels 5 2 7 7 1.

#![tactic(auto)]

ghost use Rattle.std.specs.Prelude.{◌≡◌, [], ◌∷◌, None};
ghost use Rattle.path_sheet.specs.PathSheet.{path, path_edges, Results};

use graph::Edge;

/// How many vertices the path has.
pub const VERTICES: usize = 5;

/// How many vertices the path has, by a call whose contract says so.
pub fn order() -> usize
    ensures { result ≡ path.order }
{
    5
}

/// The edges of the path. The contract also has the twelve worked results, each of which computes.
pub fn edges() -> [Edge; 4]
    ensures edges { result ≡ path_edges }
    ensures results { Results }
{
    [
        Edge {
            first: 0,
            second: 1,
        },
        Edge {
            first: 1,
            second: 2,
        },
        Edge {
            first: 2,
            second: 3,
        },
        Edge {
            first: 3,
            second: 4,
        },
    ]
}

/// The records of the edge weights: they are absent.
pub fn edge_records() -> Option<&'static [u8]>
    ensures { result ≡ None }
{
    None
}

/// The records of the vertex weights, Levels 5 2 7 7 1.
pub fn vertex_records() -> [u8; 10]
    ensures { result ≡ 5 ∷ 0 ∷ 2 ∷ 0 ∷ 7 ∷ 0 ∷ 7 ∷ 0 ∷ 1 ∷ 0 ∷ [] }
{
    [5, 0, 2, 0, 7, 0, 7, 0, 1, 0]
}
