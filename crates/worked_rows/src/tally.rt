use crate::compare::{Outcome, Trial};
use crate::held::Held;
use crate::row::Row;
use anyhow::Result;
use std::alloc::Global;
use std::fmt;

/// How many runs were made, and how many of them differ from what their rows want.
#[derive(Clone, Copy, Default)]
pub(crate) struct Tally {
    runs: u64,
    differ: u64,
}

impl fmt::Display for Tally {
    fn fmt<W: fmt::Write>(&self, f: &mut fmt::Formatter<W>) -> fmt::Result {
        write!(f, "runs {} differ {}", self.runs, self.differ)
    }
}

impl Tally {
    /// Makes the runs of a table's rows, and prints where they differ.
    pub(crate) fn try_rows(
        &mut self,
        rt: &impl Print,
        alloc: Global,
        table: &str,
        rows: &[Row],
    ) -> Result<()> {
        for row in rows {
            self.try_row(rt, alloc, table, row)?;
        }
        Ok(())
    }

    // Makes the runs of a row, each over what is kept of those before it.
    fn try_row(&mut self, rt: &impl Print, alloc: Global, table: &str, row: &Row) -> Result<()> {
        let mut held = Held::new(alloc, row.held.as_slice());
        for command in row.commands.iter() {
            for run in command.runs.iter() {
                let trial = Trial {
                    words: &command.words,
                    held: &held,
                    run,
                };
                let outcome = self.try_run(rt, alloc, table, row.number, trial)?;
                outcome.keep(alloc, run, &mut held)?;
            }
        }
        Ok(())
    }

    // Makes a run, and prints where it differs.
    fn try_run(
        &mut self,
        rt: &impl Print,
        alloc: Global,
        table: &str,
        number: usize,
        trial: Trial,
    ) -> Result<Outcome> {
        let outcome = Outcome::of(alloc, trial)?;
        let differences = outcome.differences(alloc, trial)?;
        self.runs = self.runs.saturating_add(1);
        if !differences.is_empty() {
            self.differ = self.differ.saturating_add(1);
        }
        for difference in differences.iter() {
            println!(rt; "{table} {number}: {difference}")?;
        }
        Ok(outcome)
    }
}
