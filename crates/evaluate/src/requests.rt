//! What the arguments ask for.

use evaluation::KindName;
use std::fmt;
use std::num::IntErrorKind;

/// How the program is called.
pub(crate) fn usage() -> &'static str {
    "usage: evaluate KIND N GRAPH VERTICES EDGES RECIPE VERTICES_OUT EDGES_OUT
       evaluate KIND N GRAPH VERTICES EDGES RECIPE --print
KIND is presence, level or classes, or one of them with reversed- in front.
N is the number of vertices, and GRAPH a graph file.
VERTICES and EDGES are record files; EDGES may be -, and then each edge gets the meet of its ends.
RECIPE is the text of the recipe, or @FILE.
The weights after the recipe are written to VERTICES_OUT and EDGES_OUT; with --print, also as the
first argument, they are printed."
}

/// Where the weights go.
#[derive(Clone, Copy)]
pub enum Target<'a> {
    /// To two files, as records.
    Files { vertices: &'a str, edges: &'a str },
    /// To standard output, as numbers.
    Standard,
}

/// One evaluation, by the names of its files.
#[derive(Clone, Copy)]
pub struct Request<'a> {
    pub kind: KindName,
    pub n: usize,
    pub graph: &'a str,
    pub vertices: &'a str,
    pub edges: &'a str,
    pub recipe: &'a str,
    pub target: Target<'a>,
}

/// Why the arguments ask for nothing.
#[derive(Clone, Copy)]
pub enum Misuse<'a> {
    Count,
    Kind(&'a str),
    Order(&'a str),
    SameFile(&'a str),
}

impl<'a> fmt::Display for Misuse<'a> {
    fn fmt<W: fmt::Write>(&self, f: &mut fmt::Formatter<W>) -> fmt::Result {
        match self {
            Misuse::Count => write!(f, "there are too few or too many arguments"),
            Misuse::Kind(word) => write!(f, "there is no kind {word}"),
            Misuse::Order(word) => write!(f, "N is no number: {word}"),
            Misuse::SameFile(word) => write!(f, "both outputs would go to {word}"),
        }
    }
}

/// The number of vertices. One that is too large for the machine is larger than any graph, and is refused with the graph.
fn parse_order(word: &str) -> Result<usize, Misuse<'_>> {
    word.parse::<usize>().or_else(|error| match error.kind() {
        IntErrorKind::PosOverflow => Ok(usize::MAX),
        _ => Err(Misuse::Order(word)),
    })
}

/// The kind of a name.
fn parse_kind(word: &str) -> Result<KindName, Misuse<'_>> {
    word.parse().map_err(|_| Misuse::Kind(word))
}

/// Where the weights go, by the option in front and the arguments after the recipe.
fn parse_target<'a>(
    front: Option<Target<'a>>,
    words: &'a [String],
) -> Result<Target<'a>, Misuse<'a>> {
    match (front, words) {
        (Some(target), []) => Ok(target),
        (None, [word]) if word.as_str() == "--print" => Ok(Target::Standard),
        (None, [vertices, edges]) => {
            let vertices = vertices.as_str();
            let edges = edges.as_str();
            if vertices == edges {
                return Err(Misuse::SameFile(vertices));
            }
            Ok(Target::Files { vertices, edges })
        }
        _ => Err(Misuse::Count),
    }
}

impl<'a> Request<'a> {
    /// Reads the arguments after the program's name.
    pub(crate) fn parse(words: &'a [String]) -> Result<Request<'a>, Misuse<'a>> {
        let (front, words) = match words {
            [first, rest @ ..] if first.as_str() == "--print" => (Some(Target::Standard), rest),
            _ => (None, words),
        };
        let [kind, n, graph, vertices, edges, recipe, rest @ ..] = words else {
            return Err(Misuse::Count);
        };
        Ok(Request {
            kind: parse_kind(kind.as_str())?,
            n: parse_order(n.as_str())?,
            graph: graph.as_str(),
            vertices: vertices.as_str(),
            edges: edges.as_str(),
            recipe: recipe.as_str(),
            target: parse_target(front, rest)?,
        })
    }
}
