//! Runs of a filter, and their times.

// Kept here and in `bench_sheet`: `main`, `perform`, `measure`, `print_result`, and the clock around a call (here in
// `time_apply`, there in `timed`). A function of both that took the time or printed could promise nothing of it, and one that lent
// its graph to a closure would have to be public with a `requires`. The usage and the number of decimals differ too.

use crate::jobs::Job;
use anyhow::anyhow;
use buffers::Buffers;
use filters::Filter;
use graph::{Graph, judge};
use lattice::Level;
use measuring::{checksum_levels, starting_weights};
use std::time::{Duration, Instant};

/// The time of one application of a filter.
fn time_apply(
    rt: &HostRuntime,
    filter: Filter,
    graph: &Graph,
    weights: &mut Buffers<Level>,
    scratch: &mut Buffers<Level>,
) -> anyhow::Result<Duration> {
    let start = Instant::now(rt)?;
    let answer = filter.apply(graph, weights.lend(), scratch.lend());
    let time = start.elapsed(rt)?;
    answer.map_err(|_| anyhow!("the filter was refused"))?;
    Ok(time)
}

/// Prints the best and the median of the times, and a checksum. The median of an even number is the later of the two middle ones.
fn print_result(rt: &HostRuntime, times: &mut Vec<Duration>, checksum: u64) -> anyhow::Result<()> {
    times.sort()?;
    let middle = times.len() / 2;
    let (Some(best), Some(median)) = (times.first(), times.get(middle)) else {
        return Err(anyhow!("there was no run"));
    };
    let best = best.as_secs_f64() * 1000.0;
    let median = median.as_secs_f64() * 1000.0;
    println!(rt; "best {best:.3} ms, median {median:.3} ms, checksum {checksum:016x}")?;
    Ok(())
}

/// Runs the filter on the graph as often as the job says, each time from the starting weights, and prints the result.
fn repeat_on(rt: &HostRuntime, job: Job, graph: &Graph) -> anyhow::Result<()> {
    let heap = rt.alloc();
    let n = graph.order();
    let m = graph.edges().len();
    let start = starting_weights(heap, graph)?;
    let mut weights = Buffers::lowest(heap, n, m)?;
    let mut scratch = Buffers::lowest(heap, n, m)?;
    let mut times = Vec::new(heap);
    for _ in 0..job.repeat {
        weights.copy_from(&start)?;
        times.push(time_apply(rt, job.filter, graph, &mut weights, &mut scratch)?)?;
    }
    let checksum = checksum_levels(weights.vertices.as_slice(), weights.edges.as_slice());
    print_result(rt, &mut times, checksum)
}

/// Does a job: makes its graph, runs its filter, and prints the result.
pub(crate) fn measure(rt: &HostRuntime, job: Job) -> anyhow::Result<()> {
    let table = job.mesh.edges(rt.alloc())?;
    let mut graph = Graph::empty();
    judge(&mut graph, job.mesh.order(), table.as_slice()).map_err(|_| anyhow!(
        "the edge table makes no graph"
    ))?;
    repeat_on(rt, job, &graph)
}
