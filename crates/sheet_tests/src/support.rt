// What the tests share: filters by family and size, weights by their numbers, and refusals by what they say.

use filters::{Family, Filter};
use graph::{Edge, Graph, judge};
use lattice::{Kind, Level, Presence, Reversed};
use refusal::{Part, Refusal};

// `graph_of`, `weights`, `levels`, `reversed` and `presences` stand in other test crates too. A crate for them would be a library, and each
// of its public functions would owe a contract and a must-fail edit, for a few lines.

pub(crate) fn filter(family: Family, size: u32) -> Filter {
    Filter { family, size }
}

// The graph of these rows, or the empty one where they are refused.
pub(crate) fn graph_of<'a>(n: usize, rows: &'a [Edge]) -> Graph<'a> {
    let mut graph = Graph::empty();
    let _ = judge(&mut graph, n, rows);
    graph
}

// Weights of these values, each made in the same way. Kept as a loop, since `map` over an array of N does not prove: its
// `map-requires` stays open.
fn weights<V: Copy, K: Kind, Make: Fn(V) -> K, const N: usize>(values: [V; N], make: Make) -> [K; N]
    requires { Make.IsAlwaysCallable make }
{
    let mut weights = [K::lowest(); N];
    for (weight, value) in weights.iter_mut().zip(values.iter()) {
        *weight = make(*value);
    }
    weights
}

pub(crate) fn levels<const N: usize>(values: [u16; N]) -> [Level; N] {
    weights(values, Level::new)
}

pub(crate) fn reversed<const N: usize>(values: [u16; N]) -> [Reversed<Level>; N] {
    weights(
        values,
        |value| Reversed {
            inner: Level::new(value),
        },
    )
}

pub(crate) fn presences<const N: usize>(values: [u8; N]) -> [Presence; N] {
    weights(values, |value| Presence::from(value == 1))
}

// Levels on the path.
pub(crate) fn path_levels(vertices: [u16; 5], edges: [u16; 4]) -> ([Level; 5], [Level; 4]) {
    (levels(vertices), levels(edges))
}

// Presences on the path.
pub(crate) fn path_presences(vertices: [u8; 5], edges: [u8; 4]) -> ([Presence; 5], [Presence; 4]) {
    (presences(vertices), presences(edges))
}

// Why a call is not accepted.
#[derive(Clone, Copy, PartialEq, Debug)]
pub enum Why {
    // The state does not take the call.
    NotTaken,
    // The number, the place and the part of a refusal.
    Refused(u8, usize, Part),
}

// What a call answers.
pub type Answer = Result<(), Why>;

pub const ACCEPTED: Answer = Ok(());

pub(crate) fn refused(number: u8, place: usize, part: Part) -> Answer {
    Err(Why::Refused(number, place, part))
}

pub(crate) fn report(refusal: Refusal) -> Why {
    Why::Refused(refusal.number(), refusal.place(), refusal.part())
}
