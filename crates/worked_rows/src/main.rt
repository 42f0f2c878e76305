// Runs the rows of tables over shelves and sinks in memory, and tells what differs from what they want.
// It stands on `run_tool` of command_line, whose contract says what each status means; docs/TABLES.md says how a
// table is written.
// Own: each argument names the file of a table. The last line counts the runs of their rows, and those that differ.
//
// Proved: that it is safe and comes to its end.
#![tactic(auto)]

mod compare;
mod held;
mod line;
mod piece;
mod row;
mod table;
mod tally;

use crate::table::read_table;
use crate::tally::Tally;
use anyhow::Result;
use std::{env, fs};

fn main(rt: HostRuntime) -> Result<()> {
    let mut tally = Tally::default();
    for word in env::args(&rt)?.skip(1) {
        let name = word.as_str();
        let text = fs::read_to_string(&rt, name)?;
        let rows = read_table(rt.alloc(), text.as_str())?;
        tally.try_rows(&rt, rt.alloc(), name, rows.as_slice())?;
    }
    println!(rt; "{tally}")?;
    Ok(())
}
