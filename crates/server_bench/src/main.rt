#![tactic(auto)]

// How fast a server answers requests, its device in memory, with the argument `time`; else what it answers, the same in every run.
mod bench;

use bench::{Bench, Workload};
use std::alloc::Global;
use std::env;
use std::time::Instant;

// The best of several rounds is the one that the machine's other work disturbed least.
const ROUNDS: usize = 5;

fn play(heap: Global, workload: Workload) -> anyhow::Result<u32> {
    let mut bench = Bench::new(heap, workload)?;
    bench.play()?;
    Ok(bench.sum())
}

fn print_sums(rt: &HostRuntime, heap: Global) -> anyhow::Result<()> {
    let renewals = play(heap, Workload::Renewals)?;
    let first = play(heap, Workload::FirstRequests)?;
    println!(rt; "renewals {renewals:08x}, first requests {first:08x}")?;
    Ok(())
}

// Microseconds of the best round.
fn best(rt: &HostRuntime, heap: Global, workload: Workload) -> anyhow::Result<u128> {
    // a round is always the best so far, since there are some
    let mut best = u128::MAX;
    for _ in 0..ROUNDS {
        let mut bench = Bench::new(heap, workload)?;
        let start = Instant::now(rt)?;
        bench.play()?;
        best = best.min(start.elapsed(rt)?.as_micros());
    }
    Ok(best)
}

fn print_times(rt: &HostRuntime, heap: Global) -> anyhow::Result<()> {
    let renewals = best(rt, heap, Workload::Renewals)?;
    let first = best(rt, heap, Workload::FirstRequests)?;
    println!(rt; "renewals {renewals} first {first}")?;
    Ok(())
}

fn run(rt: &HostRuntime) -> anyhow::Result<()> {
    let heap = rt.alloc();
    if env::args(rt)?
        .nth(1)
        .is_some_and(|word| word.as_str() == "time")
    {
        return print_times(rt, heap);
    }
    print_sums(rt, heap)
}

fn main(rt: HostRuntime) -> anyhow::Result<()> {
    run(&rt)
}
