ghost use Rattle.std.specs.Prelude.{◌≡◌, map};
ghost use Rattle.graph.specs.Files.{record_at, file_records};
ghost use Rattle.graph.specs.declared.edges.Edge.{Edge};

use crate::edges::Edge;

/// What an edge is read from.
pub(crate) trait Record: Copy {
    ghost edge_of: { Self → Edge };

    fn edge(self) -> Edge
        ensures { result ≡ edge_of self };
}

/// A row of an edge table is its edge.
impl Record for Edge {
    ghost edge_of = { λ e. e };

    fn edge(self) -> Edge {
        self
    }
}

/// A record of a graph file: its two ends, each four bytes with the low byte first.
impl Record for [u8; 8] {
    ghost edge_of = { λ bytes. record_at bytes 0 };

    fn edge(self) -> Edge {
        let [a, b, c, d, e, f, g, h] = self;
        Edge {
            first: u32::from_le_bytes([a, b, c, d]),
            second: u32::from_le_bytes([e, f, g, h]),
        }
    }
}

/// The whole records of a graph file.
pub(crate) fn records_in(bytes: &[u8]) -> &[[u8; 8]]
    ensures { map (λ r. record_at r 0) result.now ≡ file_records bytes.now }
{
    bytes.as_chunks().0
}
