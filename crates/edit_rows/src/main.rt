//! Plays rows of edits on the one-thread object and on the graph that the stages share, draws their frames by the slow
//! renderer, and compares with reports and pictures of an independent reading of the rules. Prints a line for each row.
#![tactic(auto)]

mod commands;
mod pictures;
mod rows;
mod working;
mod wrong;

use rows::row;
use std::{fs, io};

fn main(rt: HostRuntime) -> io::Result<()> {
    let names = fs::read_to_string(&rt, "list")?;
    for name in names.lines() {
        match row(&rt, name) {
            Ok(told) => println!(rt; "{name}: {told}")?,
            Err(wrong) => println!(rt; "{name}: wrong, {wrong}")?,
        }
    }
    Ok(())
}
