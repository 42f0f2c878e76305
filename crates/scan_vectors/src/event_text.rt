ghost use Rattle.std.specs.Prelude.{◌≡◌, IfOk, IfErr};
ghost use Rattle.scan_vectors.specs.Grammar.{SpellsLines};
ghost use Rattle.scan_vectors.specs.Faults.{first_fault, IsFault};
ghost use Rattle.scan_vectors.specs.Canonical.{IsLines};

use crate::fault::EventFault;
use crate::lines::Lines;
use crate::reader::Reader;
use std::alloc::Global;
use word_cutter::lines::{rows_of_texts_are_rows, split_line};

/// The event lines that the bytes spell, or the first fault.
pub fn read_events(alloc: Global, bytes: &[u8]) -> Result<Lines, EventFault>
    ensures spelled { IfOk result (SpellsLines bytes.now) }
    ensures faultless { IfOk result (λ _. first_fault bytes.now ≡ None) }
    ensures printable { IfOk result (λ lines. IsLines lines.list) }
    ensures fault { IfErr result (IsFault bytes.now) }
{
    rows_of_texts_are_rows();
    let mut reader = Reader::new(alloc);
    let mut rest = bytes;
    while !rest.is_empty() {
        let (line, after) = split_line(rest);
        reader.read_line(alloc, line)?;
        reader.lines.end += 1;
        rest = after;
    }
    let Reader { begun, lines } = reader;
    if !begun {
        return Err(EventFault::EventLine { line: lines.end });
    }
    Ok(lines)
}
