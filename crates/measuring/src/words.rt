//! What the arguments of a benchmark say.

ghost use Rattle.std.specs.Prelude.{◌≡◌, MatchOption, Decides};
ghost use Rattle.measuring.specs.Words.{Reads, letter_of, SizeWord, SmallGrid, GridWords, SparseMesh, RandomWords, MeshWords, FilterWords, RepeatWord};

use crate::meshes::{Grid, Mesh, Random};
use anyhow::anyhow;
use filters::{Family, Filter};

/// Reads the words that begin with a mesh, `grid W H` or `random N M SEED`, and answers the mesh and the words after them.
pub fn parse_mesh(words: &[String]) -> anyhow::Result<(Mesh, &[String])>
    ensures { Reads (λ read. MeshWords words.now read.0 read.1.now) result }
{
    match words {
        [kind, width, height, rest @ ..] if kind.as_str() == "grid" => {
            Ok((parse_grid(width.as_str(), height.as_str())?, rest))
        }
        [kind, n, m, seed, rest @ ..] if kind.as_str() == "random" => {
            Ok((parse_random(n.as_str(), m.as_str(), seed.as_str())?, rest))
        }
        _ => Err(anyhow!("the arguments begin with: grid W H, or random N M SEED")),
    }
}

/// Reads the two arguments of a grid: its width and height, at least 1 each and at most 1,000,000 vertices together.
fn parse_grid(width: &str, height: &str) -> anyhow::Result<Mesh>
    ensures { Reads (GridWords width.now height.now) result }
{
    if let (Ok(width), Ok(height)) = (width.parse::<u32>(), height.parse::<u32>())
        && let Some(grid) = grid(width, height)
    {
        return Ok(Mesh::Grid(grid));
    }
    Err(anyhow!("W and H are at least 1, and W * H at most 1000000"))
}

/// Reads the three arguments of a random mesh: 2 to 1,000,000 vertices, at most 4,000,000 edges, which are at most half of those that
/// there can be, and a seed.
fn parse_random(n: &str, m: &str, seed: &str) -> anyhow::Result<Mesh>
    ensures { Reads (RandomWords n.now m.now seed.now) result }
{
    let seed = seed
        .parse::<u64>()
        .map_err(|_| anyhow!("SEED is a number of 64 bits"))?;
    match (n.parse::<u32>(), m.parse::<u32>()) {
        (Ok(n), Ok(m)) if is_sparse(n, m) => Ok(Mesh::Random(Random { n, m, seed })),
        _ => Err(anyhow!(
            "N is 2 to 1000000, and M at most 4000000 and at most a quarter of N * (N - 1)"
        )),
    }
}

/// Reads the two arguments of a filter: the letter of its family, and its size, 1 to 200.
pub fn parse_filter(letter: &str, size: &str) -> anyhow::Result<Filter>
    ensures { Reads (FilterWords letter.now size.now) result }
{
    let family = parse_family(letter)?;
    let size = parse_size(size)?;
    Ok(Filter { family, size })
}

/// Reads how often to run: at least once.
pub fn parse_repeat(text: &str) -> anyhow::Result<u64>
    ensures { Reads (RepeatWord text.now) result }
{
    match text.parse::<u64>() {
        Ok(repeat) if repeat >= 1 => Ok(repeat),
        _ => Err(anyhow!("REPEAT is at least 1")),
    }
}

/// The grid of this size, unless it has no vertex or too many.
fn grid(width: u32, height: u32) -> Option<Grid>
    ensures { MatchOption result (SmallGrid width height → ⊥) (λ g. (g.width ≡ width) × (g.height ≡ height) × SmallGrid width height) }
{
    let n = width.checked_mul(height)?;
    if width == 0 || height == 0 || width > 1_000_000 || n > 1_000_000 {
        return None;
    }
    Some(Grid { width, height })
}

/// Whether so many edges are at most half of those that there can be, so that the generator soon finds them.
fn is_sparse(n: u32, m: u32) -> bool
    ensures { Decides result (SparseMesh n m) }
{
    if n < 2 || n > 1_000_000 || m > 4_000_000 {
        return false;
    }
    let n = u64::from(n);
    u64::from(m) <= n * (n - 1) / 4
}

fn parse_family(letter: &str) -> anyhow::Result<Family>
    ensures { Reads (λ family. letter.now ≡ letter_of family) result }
{
    match letter {
        "D" => Ok(Family::Dilation),
        "E" => Ok(Family::Erosion),
        "O" => Ok(Family::Opening),
        "C" => Ok(Family::Closing),
        "A" => Ok(Family::Alternate),
        _ => Err(anyhow!("LETTER is D, E, O, C or A")),
    }
}

fn parse_size(text: &str) -> anyhow::Result<u32>
    ensures { Reads (SizeWord text.now) result }
{
    match text.parse::<u32>() {
        Ok(size) if 1 <= size && size <= 200 => Ok(size),
        _ => Err(anyhow!("SIZE is 1 to 200")),
    }
}
