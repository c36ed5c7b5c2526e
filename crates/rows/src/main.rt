//! Plays the rows of `data/rows` through `perfly`, over a source and sinks in memory, and prints each row that ends
//! otherwise than it says.
#![tactic(auto)]

mod playing;
mod row;
mod wanted;

use anyhow::{Context, Result, bail};
use playing::play_row;
use row::Row;
use std::fs;

fn main(rt: HostRuntime) -> Result<()> {
    let list = fs::read_to_string(&rt, "rows").context("reading the list of rows")?;
    let mut rows = 0u64;
    let mut runs = 0u64;
    let mut wrong = 0u64;
    for block in list.as_str().split("\n\n") {
        let row = Row::read(rt.alloc(), block)?;
        let tally = play_row(&rt, &row)?;
        rows = rows.saturating_add(1);
        runs = runs.saturating_add(tally.runs);
        if let Some(difference) = tally.difference {
            println!(rt; "{}: {}", row.name, difference.as_str())?;
            wrong = wrong.saturating_add(1);
        }
    }
    if wrong > 0 {
        bail!("{wrong} of {rows} rows differ");
    }
    println!(rt; "{rows} rows, {runs} runs: all right")?;
    Ok(())
}
