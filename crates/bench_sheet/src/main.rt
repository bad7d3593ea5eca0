//! Times a call of a sheet of Levels on a grid or on a random graph: opening it, a filter, or closing it.
//!
//! It takes the arguments of the C++ twin in `bench/twin.cpp`, makes the same graph and the same starting weights, and prints the same
//! line: the best and the median time of a run, and a checksum of what the last one wrote. Without arguments it prints how to call
//! it.

#![tactic(auto)]

mod byte_records;
mod jobs;
mod runs;

use jobs::Job;
use std::{env, io};

fn print_usage(rt: &HostRuntime) -> io::Result<()> {
    println!(rt; "usage: bench grid W H TASK REPEAT")?;
    println!(rt; "       bench random N M SEED TASK REPEAT")?;
    println!(rt;
        "TASK is open, close, or LETTER SIZE: LETTER is D, E, O, C or A, and SIZE is 1 to 200."
    )?;
    println!(rt; "The task is done REPEAT times, each time from the starting weights.")
}

fn perform(rt: &HostRuntime) -> anyhow::Result<()> {
    let heap = rt.alloc();
    let words: Vec<String> = env::args(rt)?.skip(1).collect(heap)?;
    if words.is_empty() {
        print_usage(rt)?;
        return Ok(());
    }
    let job = Job::parse(words.as_slice())?;
    runs::measure(rt, job)
}

fn main(rt: HostRuntime) -> anyhow::Result<()> {
    perform(&rt)
}
