//! What an evaluation is given, and what it gives.

ghost use Rattle.std.specs.Prelude.{◌≡◌};
ghost use Rattle.evaluation.specs.declared.jobs.Failure.TheVariants.{Refused as RefusedCase, NoMemory as NoMemoryCase};

use refusal::Refusal;
use std::alloc::AllocError;

/// What is to be evaluated: bytes, as they stand in files.
#[derive(Clone, Copy)]
pub struct Job<'a> {
    /// The number of vertices.
    pub n: usize,
    /// The graph file: a record of 8 bytes for each edge.
    pub graph: &'a [u8],
    /// A record for each vertex.
    pub vertices: &'a [u8],
    /// A record for each edge; where they are absent, each edge gets the meet of the weights of its ends.
    pub edges: Option<&'a [u8]>,
    /// The text of the recipe.
    pub recipe: &'a [u8],
}

// How long the records are stands in the contracts and not in this type, since it depends on the width of a kind that no field names.
/// The weights after the recipe, as records, and what was counted.
#[derive(Drop)]
pub struct Evaluated {
    /// A record for each vertex.
    pub vertex_records: Vec<u8>,
    /// A record for each edge.
    pub edge_records: Vec<u8>,
    /// How many vertices there are.
    pub vertices: usize,
    /// How many edges there are.
    pub edges: usize,
    /// How many words the recipe has.
    pub words: usize,
}

/// Why there are no records.
#[derive(Clone, Copy)]
pub enum Failure {
    /// The graph file, the records or the recipe is refused.
    Refused(Refusal),
    /// There is not enough memory.
    NoMemory,
}

// `Problem` of `c_library` has conversions of this shape: each error type says for itself which case it makes.

impl From<Refusal> for Failure {
    ghost from_gives = { λ why r. r ≡ RefusedCase why };

    fn from(why: Refusal) -> Failure {
        Failure::Refused(why)
    }
}

impl From<AllocError> for Failure {
    ghost from_gives = { λ _ r. r ≡ NoMemoryCase };

    fn from(_error: AllocError) -> Failure {
        Failure::NoMemory
    }
}
