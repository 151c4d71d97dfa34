//! The jobs that users of the library wait for, on inputs generated from a seed: the program of
//! `bench/workloads.txt`.
//!
//! It takes the name of a job, the number of rounds, and a seed, and prints a digest of all results
//! of the calls. Each round has its own inputs.
#![tactic(auto)]

mod build;
mod digest;
mod directory;
mod gather;
mod index;
mod nulls;
mod pages;
mod random;
mod records;
mod scan;
mod sessions;

use anyhow::{Context, Result, bail};
use digest::Digest;
use random::Random;
use std::alloc::Global;
use std::env;

fn main(rt: HostRuntime) -> Result<()> {
    let words: Vec<String> = env::args(&rt)?.collect(rt.alloc())?;
    let [_, job, rounds, seed] = words.as_slice() else {
        bail!("usage: run_jobs JOB ROUNDS SEED");
    };
    let rounds = rounds.as_str().parse::<u32>().context("rounds")?;
    let seed = seed.as_str().parse::<u64>().context("seed")?;
    let mut digest = Digest::new();
    do_jobs(rt.alloc(), job.as_str(), rounds, seed, &mut digest)?;
    println!(rt;
        "{} {:016x} {:016x}",
        job.as_str(),
        digest.sum(),
        digest.order()
    )?;
    drop(words);
    Ok(())
}

/// The jobs. The name `all` runs all of them.
const JOBS: &[&str] = &[
    "scan",
    "index",
    "build",
    "directory",
    "gather",
    "nulls",
    "sessions",
];

/// Runs `rounds` rounds of a job, or of each job if its name is `all`.
fn do_jobs(alloc: Global, job: &str, rounds: u32, seed: u64, digest: &mut Digest) -> Result<()> {
    let random = &mut Random::new(seed);
    if job != "all" {
        return do_job(alloc, job, rounds, random, digest);
    }
    for each in JOBS {
        do_job(alloc, *each, rounds, random, digest)?;
    }
    Ok(())
}

/// Runs `rounds` rounds of one job.
fn do_job(
    alloc: Global,
    job: &str,
    rounds: u32,
    random: &mut Random,
    digest: &mut Digest,
) -> Result<()> {
    match job {
        "scan" => scan::scan(alloc, rounds, random, digest),
        "index" => index::index(alloc, rounds, random, digest),
        "build" => build::build(alloc, rounds, random, digest),
        "directory" => directory::directory(alloc, rounds, random, digest),
        "gather" => gather::gather(alloc, rounds, random, digest),
        "nulls" => nulls::nulls(alloc, rounds, random, digest),
        "sessions" => sessions::sessions(alloc, rounds, random, digest),
        _ => bail!("no job of this name"),
    }
}
