//! Calls whose cost is promised: the program of `tools/growth`, which counts its steps.
//!
//! It takes a family, a row, a size and a number of calls, makes the input once, makes that number
//! of calls, and prints a sum of their results. The family `all` makes the calls of all rows and
//! ignores the row.
#![tactic(auto)]

mod bits;
mod directory;
mod input;
mod sets;
mod values;

use crate::input::Case;
use anyhow::{Context, Result, bail};
use std::alloc::Global;
use std::env;

fn main(rt: HostRuntime) -> Result<()> {
    let words: Vec<String> = env::args(&rt)?.collect(rt.alloc())?;
    let [_, family, row, size, calls] = words.as_slice() else {
        bail!("usage: run_growth FAMILY ROW SIZE CALLS");
    };
    let case = Case::read(size.as_str(), calls.as_str())?;
    let sum = match family.as_str() {
        "all" => measure_all(rt.alloc(), case)?,
        family => measure(rt.alloc(), family, row.as_str(), case)?,
    };
    println!(rt; "{sum}")?;
    drop(words);
    Ok(())
}

/// Makes the calls of all rows.
fn measure_all(alloc: Global, case: Case) -> Result<usize> {
    let bits = measure_rows(alloc, bits::ROWS, case)?;
    let sets = measure_rows(alloc, sets::ROWS, case)?;
    let values = measure_rows(alloc, values::ROWS, case)?;
    let directory = measure_rows(alloc, directory::ROWS, case)?;
    Ok(bits ^ sets.rotate_left(8) ^ values.rotate_left(16) ^ directory.rotate_left(24))
}

/// Makes the calls of these rows. The sum depends on their order.
fn measure_rows(alloc: Global, rows: &[&str], case: Case) -> Result<usize> {
    let mut sum = 0usize;
    for words in rows {
        let (family, row) = words.split_once(' ').context("row")?;
        sum = sum.rotate_left(1) ^ measure(alloc, family, row, case)?;
    }
    Ok(sum)
}

/// Makes the calls of a row.
fn measure(alloc: Global, family: &str, row: &str, case: Case) -> Result<usize> {
    match family {
        "counts" | "near" | "far" | "walks" | "few" | "writes" => bits::measure(
            alloc, family, row, case,
        ),
        "sets" | "far_sets" | "combined" | "grown" | "made" | "open" | "room" | "shared" =>
            sets::measure(alloc, family, row, case),
        "filtered"
        | "filtered_few"
        | "filtered_all"
        | "aggregated"
        | "aggregated_few"
        | "aggregated_all"
        | "taken"
        | "compared"
        | "packed"
        | "moved"
        | "buffers"
        | "grown_buffers"
        | "owners" => values::measure(alloc, family, row, case),
        "ranked" | "ranked_buffer" | "edited" | "counted" | "tables" => directory::measure(
            alloc, family, row, case,
        ),
        _ => bail!("no family of this name"),
    }
}
