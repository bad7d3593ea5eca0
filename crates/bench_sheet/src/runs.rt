//! Runs of a task, and their times.

// Kept here and in `bench`: `main`, `perform`, `measure`, `print_result`, and the clock around a call (here in
// `timed`, there in `time_apply`). A function of both that took the time or printed could promise nothing of it, and one that lent
// its graph to a closure would have to be public with a `requires`. The usage and the number of decimals differ too.

use crate::byte_records::{Records, clear};
use crate::jobs::{Job, Task};
use anyhow::anyhow;
use buffers::Buffers;
use filters::Filter;
use graph::{Graph, judge};
use lattice::Level;
use measuring::{checksum_levels, checksum_records, starting_weights};
use refusal::Refusal;
use sheet::{Clear, Sheet};
use std::alloc::Global;
use std::time::{Duration, Instant};

/// The buffers of all runs.
#[derive(Drop)]
struct Bench {
    start: Buffers<Level>,
    start_records: Records,
    weights: Buffers<Level>,
    scratch: Buffers<Level>,
    records: Records,
}

impl Bench {
    fn new(heap: Global, graph: &Graph) -> anyhow::Result<Bench> {
        let n = graph.order();
        let m = graph.edges().len();
        let start = starting_weights(heap, graph)?;
        let start_records = Records::of(heap, &start)?;
        let records = Records::of(heap, &start)?;
        Ok(Bench {
            start,
            start_records,
            weights: Buffers::lowest(heap, n, m)?,
            scratch: Buffers::lowest(heap, n, m)?,
            records,
        })
    }

    /// Does a task once from the starting weights, and answers the time of its call alone.
    fn time(&mut self, rt: &HostRuntime, task: Task, graph: &Graph) -> anyhow::Result<Duration> {
        match task {
            Task::Open => {
                clear(&mut self.weights);
                time_open(
                    rt,
                    graph,
                    self.start_records.vertices.as_slice(),
                    &mut self.weights,
                )
            }
            Task::Step(filter) => {
                self.weights.copy_from(&self.start)?;
                time_step(rt, filter, graph, &mut self.weights, &mut self.scratch)
            }
            Task::Close => {
                self.records.clear();
                time_close(
                    rt,
                    graph,
                    self.start_records.vertices.as_slice(),
                    &mut self.weights,
                    &mut self.records,
                )
            }
        }
    }

    /// The checksum of what the task wrote.
    fn checksum(&self, task: Task) -> u64 {
        match task {
            Task::Open | Task::Step(_) => checksum_levels(
                self.weights.vertices.as_slice(),
                self.weights.edges.as_slice(),
            ),
            Task::Close => checksum_records(
                self.records.vertices.as_slice(),
                self.records.edges.as_slice(),
            ),
        }
    }
}

/// Opens a sheet.
fn open<'g, 'e>(
    graph: &'g Graph<'e>,
    records: &[u8],
    edge_records: Option<&[u8]>,
    weights: &mut Buffers<Level>,
) -> Result<Sheet<'g, 'e, Level, Clear>, Refusal> {
    Sheet::open(graph, records, edge_records, weights.lend())
}

/// The time of a call, unless it is refused.
fn timed<T: Drop, E: Drop, F: FnOnce() -> Result<T, E>>(
    rt: &HostRuntime,
    what: &str,
    call: F,
) -> anyhow::Result<Duration>
    requires { F.pre call }
{
    let start = Instant::now(rt)?;
    let answer = call();
    let time = start.elapsed(rt)?;
    answer.map_err(|_| anyhow!("{what} was refused"))?;
    Ok(time)
}

/// The time of opening a sheet whose edge records are absent.
fn time_open(
    rt: &HostRuntime,
    graph: &Graph,
    records: &[u8],
    weights: &mut Buffers<Level>,
) -> anyhow::Result<Duration> {
    timed(rt, "opening", || open(graph, records, None, weights))
}

/// The time of one application of a filter.
fn time_step(
    rt: &HostRuntime,
    filter: Filter,
    graph: &Graph,
    weights: &mut Buffers<Level>,
    scratch: &mut Buffers<Level>,
) -> anyhow::Result<Duration> {
    timed(
        rt,
        "the filter",
        || filter.apply(graph, weights.lend(), scratch.lend()),
    )
}

/// The time of closing a sheet, which is opened before.
fn time_close(
    rt: &HostRuntime,
    graph: &Graph,
    start_records: &[u8],
    weights: &mut Buffers<Level>,
    records: &mut Records,
) -> anyhow::Result<Duration> {
    let sheet = open(graph, start_records, None, weights).map_err(|_| anyhow!(
        "opening was refused"
    ))?;
    let weights = weights.weights();
    let vertex_records = records.vertices.as_mut_slice();
    let edge_records = records.edges.as_mut_slice();
    timed(
        rt,
        "closing",
        || sheet.close(weights, vertex_records, edge_records),
    )
}

/// Prints the best and the median of the times, and a checksum. The median of an even number is the later of the two middle ones.
fn print_result(rt: &HostRuntime, times: &mut Vec<Duration>, checksum: u64) -> anyhow::Result<()> {
    times.sort()?;
    let middle = times.len() / 2;
    let (Some(best), Some(median)) = (times.first(), times.get(middle)) else {
        return Err(anyhow!("there was no run"));
    };
    let best = best.as_secs_f64() * 1000.0;
    let median = median.as_secs_f64() * 1000.0;
    println!(rt; "best {best:.4} ms, median {median:.4} ms, checksum {checksum:016x}")?;
    Ok(())
}

/// Does the task on the graph as often as the job says, each time from the starting weights, and prints the result.
fn repeat_on(rt: &HostRuntime, job: Job, graph: &Graph) -> anyhow::Result<()> {
    let heap = rt.alloc();
    let mut bench = Bench::new(heap, graph)?;
    let mut times = Vec::new(heap);
    for _ in 0..job.repeat {
        times.push(bench.time(rt, job.task, graph)?)?;
    }
    print_result(rt, &mut times, bench.checksum(job.task))
}

/// Does a job: makes its graph, repeats its task, and prints the result.
pub(crate) fn measure(rt: &HostRuntime, job: Job) -> anyhow::Result<()> {
    let table = job.mesh.edges(rt.alloc())?;
    let mut graph = Graph::empty();
    judge(&mut graph, job.mesh.order(), table.as_slice()).map_err(|_| anyhow!(
        "the edge table makes no graph"
    ))?;
    repeat_on(rt, job, &graph)
}
