//! Runs a recipe on the weights of a graph, from files to files: the records of the weights come in, and those of the filtered
//! weights go out. `docs/evaluate.md` says how to use it.

#![tactic(auto)]

mod files;
mod meters;
mod printing;
mod requests;
mod troubles;

use evaluation::{Evaluated, Job, evaluate_as_with};
use files::{read_edges, read_file, read_recipe, write_both};
use meters::Meter;
use printing::print_evaluated;
use requests::{Request, Target, usage};
use std::process::ExitCode;
use std::time::Instant;
use std::{env, io};
use troubles::Trouble;

/// Says how many vertices, edges and words there were, and how long it took.
fn print_summary(rt: &HostRuntime, start: Instant, evaluated: &Evaluated) -> io::Result<()> {
    let vertices = evaluated.vertices;
    let edges = evaluated.edges;
    let words = evaluated.words;
    let took = start.elapsed(rt)?;
    let seconds = took.as_secs();
    let millis = took.subsec_millis();
    println!(rt; "{vertices} vertices, {edges} edges, {words} words, {seconds}.{millis:03} s")
}

/// Hands the records out.
fn deliver<'a>(
    rt: &HostRuntime,
    start: Instant,
    request: &Request<'a>,
    evaluated: &Evaluated,
) -> Result<(), Trouble<'a>> {
    match request.target {
        Target::Standard => {
            print_evaluated(rt, request.kind, evaluated)?;
        }
        Target::Files { vertices, edges } => {
            write_both(rt, vertices, edges, evaluated)?;
            print_summary(rt, start, evaluated)?;
        }
    }
    Ok(())
}

/// Reads the files, evaluates, and hands the records out.
fn serve<'a>(rt: &HostRuntime, start: Instant, request: &Request<'a>) -> Result<(), Trouble<'a>> {
    let graph = read_file(rt, request.graph)?;
    let vertices = read_file(rt, request.vertices)?;
    let edges = read_edges(rt, request.edges)?;
    let recipe = read_recipe(rt, request.recipe)?;
    let job = Job {
        n: request.n,
        graph: graph.as_slice(),
        vertices: vertices.as_slice(),
        edges: edges.as_deref(),
        recipe: recipe.as_slice(),
    };
    let mut meter = Meter::new(rt, start);
    let evaluated = evaluate_as_with(rt.alloc(), request.kind, job, &mut meter)?;
    deliver(rt, start, request, &evaluated)
}

/// Does what the arguments after the program's name ask for.
fn answer<'a>(rt: &HostRuntime, start: Instant, words: &'a [String]) -> Result<(), Trouble<'a>> {
    match words {
        [] => Ok(rt.println(usage())?),
        [first, ..] if first.as_str() == "--help" => Ok(rt.println(usage())?),
        _ => serve(rt, start, &Request::parse(words)?),
    }
}

/// Does what the arguments ask for, or says why not. What the answer has is a trouble that is still to be said.
fn perform(rt: &HostRuntime) -> Result<ExitCode, Trouble<'static>> {
    let start = Instant::now(rt)?;
    let words: Vec<String> = env::args(rt)?.skip(1).collect(rt.alloc())?;
    match answer(rt, start, words.as_slice()) {
        Ok(()) => Ok(ExitCode::SUCCESS),
        Err(trouble) => {
            trouble.say(rt)?;
            Ok(ExitCode::FAILURE)
        }
    }
}

fn main(rt: HostRuntime) -> ExitCode {
    match perform(&rt) {
        Ok(code) => code,
        Err(trouble) => {
            let _ = trouble.say(&rt);
            ExitCode::FAILURE
        }
    }
}
