ghost use Rattle.std.specs.Prelude.{◌≡◌, length, List, IfErr, IfOk, MatchOption};
ghost use Rattle.scan_vectors.specs.declared.lines.Line.{Line};
ghost use Rattle.scan_vectors.specs.Rules.{BreaksRule};
ghost use Rattle.scan_vectors.specs.Scripts.{HaveNumbers, IsScriptFault, IsResolved};
ghost use Rattle.scan_vectors.specs.Starts.{IsAfter, TakesLine};

use crate::scripts::bits::{find_bit, suits};
use crate::scripts::fault::ScriptFault;
use crate::scripts::parts::parts_of;
use crate::scripts::script::{Script, ScriptLine};
use crate::scripts::starts::Starts;
use crate::{Line, Lines};
use netlist_link::Linked;
use std::alloc::Global;
use texts::Row;

/// The script of event lines for a linked netlist, or the first line that is illegal. Time is linear in lines and nets.
pub fn resolve(alloc: Global, lines: &Lines, linked: &Linked) -> Result<Script, ScriptFault>
    requires { HaveNumbers lines.now }
    ensures ok { IfOk result (λ script. IsResolved linked.now lines.now script.list) }
    ensures fault { IfErr result (IsScriptFault linked.now lines.now) }
{
    let mut starts = Starts::new(alloc, linked)?;
    let mut script = Row::new(alloc);
    let numbers = lines.numbers.as_slice();
    for (place, line) in lines.list.as_slice().iter().enumerate() {
        let number = numbers[place];
        match take_line(&mut starts, linked, line, number) {
            Some(found) => script.push(found)?,
            None => return Err(ScriptFault::EventIllegal { line: number }),
        }
    }
    if !starts.is_complete() {
        return Err(ScriptFault::EventIllegal { line: lines.end });
    }
    Ok(Script { list: script })
}

// Takes the next line, unless it breaks a rule.
fn take_line(starts: &mut Starts, linked: &Linked, line: &Line, number: u64) -> Option<ScriptLine>
    requires { length starts.old ≡ length linked.now.arena.lists.nets }
    ensures { (before : List Line) → IsAfter linked.now before starts.old
        → MatchOption result (BreaksRule linked.now before line.now)
        (TakesLine linked.now before line.now number starts.new) }
{
    let parts = parts_of(line);
    let bit = find_bit(linked, parts.word)?;
    if !suits(parts.act, &bit, parts.value) {
        return None;
    }
    if !starts.take(parts.act, bit.net) {
        return None;
    }
    Some(ScriptLine {
        act: parts.act,
        pin: bit.pin,
        value: parts.value,
        number,
    })
}
