// Reads a text line by line: the header, and then event lines.
ghost use Rattle.std.specs.Prelude.{◌≡◌};
ghost use Rattle.scan_vectors.specs.Faults as faults;

use crate::fault::EventFault;
use crate::form::{Form, form_of};
use crate::lines::{Act, Line, Lines};
use netlist_model::What;
use signal_values::PinSig;
use std::alloc::Global;
use texts::{OutOfMemory, Row, Text};

const LIMIT: usize = 1_000_000;

/// What the lines so far come to.
#[derive(Drop)]
pub struct Reader {
    /// The header was read.
    pub begun: bool,
    /// What was read; `end` is the number of the next line.
    pub lines: Lines,
}

fn line_of(act: Act, pin: Text, value: PinSig) -> Line
    ensures { result ≡ faults.line_of act pin value }
{
    match act {
        Act::Start => Line::Start { pin, value },
        Act::Set => Line::Set { pin, value },
        Act::Expect => Line::Expect { pin, value },
    }
}

impl Reader {
    ghost use Rattle.std.specs.Prelude.{ℕ, List, ◌∷◌, [], true, false, IfErr, OnOk};
    ghost use Rattle.scan_vectors.specs.Reader.{IsBefore, IsBehind, IsReading, HasRead, AddsLine, CannotAdd};

    /// Before the first line.
    pub fn new(alloc: Global) -> Reader
        ensures begun { result.begun ≡ false }
        ensures list { result.lines.list ≡ [] }
        ensures numbers { result.lines.numbers ≡ [] }
        ensures end { result.lines.end ≡ 1 }
    {
        Reader {
            begun: false,
            lines: Lines {
                list: Row::new(alloc),
                numbers: Row::new(alloc),
                end: 1,
            },
        }
    }

    fn add_line(
        &mut self,
        alloc: Global,
        act: Act,
        pin: &[u8],
        value: PinSig,
    ) -> Result<(), EventFault>
        ensures ok { OnOk result (AddsLine self.old self.new (faults.line_of act pin.now value)) }
        ensures err { IfErr result (CannotAdd self.old) }
    {
        if self.lines.list.len() >= LIMIT {
            return Err(EventFault::TooMany {
                what: What::Lines,
                count: LIMIT as u64 + 1,
                limit: LIMIT as u64,
            });
        }
        let pin = Text::from_bytes(alloc, pin)?;
        self.lines.numbers.push(self.lines.end)?;
        self.lines.list.push(line_of(act, pin, value))?;
        Ok(())
    }

    fn read_header(&mut self, line: &[u8]) -> Result<(), EventFault>
        requires { self.old.begun ≡ false }
        ensures read { (bytes : List ℕ) (rest : List (List ℕ))
            → IsBefore bytes self.old.lines self.old.lines.end (line.now ∷ rest)
            → HasRead bytes self.new rest result }
        ensures end { self.new.lines.end ≡ self.old.lines.end }
    {
        match form_of(line) {
            Form::Skipped => Ok(()),
            Form::Header => {
                self.begun = true;
                Ok(())
            }
            Form::Event { .. } | Form::Other => Err(EventFault::EventLine {
                line: self.lines.end,
            }),
        }
    }

    fn read_event(&mut self, alloc: Global, line: &[u8]) -> Result<(), EventFault>
        requires { self.old.begun ≡ true }
        ensures read { (bytes : List ℕ) (rest : List (List ℕ))
            → IsBehind bytes self.old.lines self.old.lines.end (line.now ∷ rest)
            → HasRead bytes self.new rest result }
        ensures end { OnOk result (self.new.lines.end ≡ self.old.lines.end) }
    {
        match form_of(line) {
            Form::Skipped => Ok(()),
            Form::Event { act, pin, value } => self.add_line(alloc, act, pin, value),
            Form::Header | Form::Other => Err(EventFault::EventLine {
                line: self.lines.end,
            }),
        }
    }

    /// Reads the next line; its number stays until the caller counts it.
    pub fn read_line(&mut self, alloc: Global, line: &[u8]) -> Result<(), EventFault>
        ensures read { (bytes : List ℕ) (rest : List (List ℕ))
            → IsReading bytes self.old.begun self.old.lines self.old.lines.end (line.now ∷ rest)
            → HasRead bytes self.new rest result }
        ensures end { OnOk result (self.new.lines.end ≡ self.old.lines.end) }
    {
        if self.begun {
            self.read_event(alloc, line)
        } else {
            self.read_header(line)
        }
    }
}
