use crate::line::{Line, LineFault, Piece};
use crate::piece::append_piece;
use crate::row::{Content, NamedText, Row, Run};
use std::alloc::Global;
use texts::Text;
use thiserror::Error;

/// Why a table can't be read.
#[derive(Clone, Copy, Debug, Drop, Error)]
pub(crate) enum TableFault {
    #[error("line {number} of the table can't stand there")]
    BadLine { number: usize },
    #[error("out of memory")]
    OutOfMemory,
}

/// The rows of a table.
pub(crate) fn read_table(alloc: Global, text: &str) -> Result<Vec<Row>, TableFault> {
    let mut reader = TableReader::new(alloc);
    let mut number = 0usize;
    for line in text.lines() {
        number = number.saturating_add(1);
        let taken = match Line::of(line) {
            Some(line) => reader.take(number, line),
            None => Err(LineFault::BadLine),
        };
        if let Err(fault) = taken {
            return Err(at_line(fault, number));
        }
    }
    if !reader.is_whole() {
        return Err(TableFault::BadLine { number });
    }
    Ok(reader.into_rows())
}

fn at_line(fault: LineFault, number: usize) -> TableFault {
    match fault {
        LineFault::BadLine => TableFault::BadLine { number },
        LineFault::OutOfMemory => TableFault::OutOfMemory,
    }
}

// Where the pieces go that come next.
#[derive(Clone, Copy)]
enum Target {
    Nowhere,
    Held,
    Given,
    Written,
}

// The rows that were read, and what the next run has so far.
#[derive(Drop)]
struct TableReader {
    alloc: Global,
    rows: Vec<Row>,
    next: Option<Run>,
    target: Target,
}

impl TableReader {
    fn new(alloc: Global) -> TableReader {
        TableReader {
            alloc,
            rows: Vec::new(alloc),
            next: None,
            target: Target::Nowhere,
        }
    }

    fn into_rows(self) -> Vec<Row> {
        let TableReader {
            alloc: _,
            rows,
            next: _,
            target: _,
        } = self;
        rows
    }

    // Whether no line is wanted: each row has a run, and no run is begun.
    fn is_whole(&self) -> bool {
        let has_run = match self.rows.last() {
            Some(row) => row.is_whole(),
            None => true,
        };
        has_run && self.next.is_none()
    }

    fn take(&mut self, number: usize, line: Line) -> Result<(), LineFault> {
        let alloc = self.alloc;
        match line {
            Line::Empty => Ok(()),
            Line::Row => self.begin_row(number),
            Line::Words(words) => self.row()?.add_words(alloc, words),
            Line::Held(name) => self.begin_held(name),
            Line::Fail(call) => Ok(self.next_run().fails.push(call)?),
            Line::FailPut(call) => Ok(self.next_run().put_fails.push(call)?),
            Line::Room(name, bytes) => Ok(self.next_run().add_room(alloc, name, bytes)?),
            Line::SinkRoom(bytes) => {
                self.next_run().sink_room = bytes;
                Ok(())
            }
            Line::Ends(status) => self.end_run(status),
            Line::Piece(piece) => append_piece(self.text()?, piece),
            line => self.take_end(line),
        }
    }

    // Takes a line on what the run must come to that was ended last.
    fn take_end(&mut self, line: Line) -> Result<(), LineFault> {
        let alloc = self.alloc;
        let run = self.run()?;
        match line {
            Line::Gives => {
                self.target = Target::Given;
                return Ok(());
            }
            Line::Writes(name) => {
                run.add_written(alloc, name, Content::Text(Text::new(alloc)))?;
                self.target = Target::Written;
                return Ok(());
            }
            Line::GivesLast(text) => run.set_last_line(alloc, text)?,
            Line::WritesAny(name) => run.add_written(alloc, name, Content::Any)?,
            Line::Same(name, held) => run.add_same(alloc, name, held)?,
            Line::Front(name, held, bytes) => run.add_front(alloc, name, held, bytes)?,
            Line::Keep(name) => run.add_kept(alloc, name)?,
            _ => return Err(LineFault::BadLine),
        }
        Ok(())
    }

    // The row that was begun last.
    fn row(&mut self) -> Result<&mut Row, LineFault> {
        self.target = Target::Nowhere;
        self.rows.last_mut().ok_or(LineFault::BadLine)
    }

    // The run that was ended last.
    fn run(&mut self) -> Result<&mut Run, LineFault> {
        self.row()?.last_run().ok_or(LineFault::BadLine)
    }

    fn next_run(&mut self) -> &mut Run {
        self.target = Target::Nowhere;
        let alloc = self.alloc;
        self.next.get_or_insert_with(|| Run::new(alloc))
    }

    fn begin_row(&mut self, number: usize) -> Result<(), LineFault> {
        if !self.is_whole() {
            return Err(LineFault::BadLine);
        }
        self.target = Target::Nowhere;
        self.rows.push(Row::new(self.alloc, number)?)?;
        Ok(())
    }

    fn begin_held(&mut self, name: &str) -> Result<(), LineFault> {
        let file = NamedText::new(self.alloc, name)?;
        self.row()?.held.push(file)?;
        self.target = Target::Held;
        Ok(())
    }

    fn end_run(&mut self, status: u8) -> Result<(), LineFault> {
        let mut run = match self.next.take() {
            Some(run) => run,
            None => Run::new(self.alloc),
        };
        run.status = status;
        let alloc = self.alloc;
        self.row()?.add_run(alloc, run)
    }

    // The text to which the next piece belongs.
    fn text(&mut self) -> Result<&mut Text, LineFault> {
        let row = self.rows.last_mut().ok_or(LineFault::BadLine)?;
        let text = match self.target {
            Target::Nowhere => None,
            Target::Held => row.last_held(),
            Target::Given => row.last_given(),
            Target::Written => row.last_written(),
        };
        text.ok_or(LineFault::BadLine)
    }
}
