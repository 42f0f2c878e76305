ghost use Rattle.std.specs.Prelude.{◌≡◌, ℕ, [], ◌≤◌, ◌<◌, ◌⊎◌, take, length, IfOk, OnOk, OnErr, IsErrOf};
ghost use Rattle.edge_io.specs.Shelf.{Access, NoneFell, Rose, RoseAt, SameTold, WhereTold, ChangesOne, appended, told_if};

use crate::shelf::Shelf;
use crate::sink::Sink;
use std::alloc::Global;
use texts::{OutOfMemory, Text};

/// How many bytes one read asks for.
const PIECE: usize = 65_536;

/// Why a text couldn't be read.
#[derive(Clone, Copy, Debug, Drop)]
pub enum ReadIssue {
    /// The shelf failed.
    ReadFault,
    /// The text is longer than the limit.
    TooLong,
    OutOfMemory,
}

/// A text couldn't be written, or was written in part.
#[derive(Clone, Copy, Drop)]
pub struct WriteFault;

/// Reads all that lies under a name, at most `limit` bytes. It answers `ReadFault` where a read fails, and
/// `TooLong` at the first byte past the limit.
pub fn read_whole<S: Shelf>(
    alloc: Global,
    shelf: &mut S,
    name: &str,
    limit: u64,
) -> Result<Text, ReadIssue>
    ensures ok { IfOk result (λ text. WhereTold (S.held shelf.old name.now) (λ bytes. text ≡ bytes)) }
    ensures within { IfOk result (λ text. length text ≤ limit) }
    ensures too_long { IsErrOf result ReadIssue.TooLong
        → WhereTold (S.held shelf.old name.now) (λ bytes. limit < length bytes) }
    ensures fault { IsErrOf result ReadIssue.ReadFault
        → RoseAt (S.faults shelf.old) (S.faults shelf.new) Access.reading name.now }
    ensures later { NoneFell (S.faults shelf.old) (S.faults shelf.new) }
    ensures held { SameTold (S.held shelf.old) (S.held shelf.new) }
    ensures written { SameTold (S.written shelf.old) (S.written shelf.new) }
{
    let Ok(mut buffer) = zeros(alloc, PIECE) else {
        return Err(ReadIssue::OutOfMemory);
    };
    let mut text = Text::new(alloc);
    text.make_room(limit as usize);
    read_pieces(text, shelf, name, limit, &mut buffer)
}

// So many zeros.
fn zeros(alloc: Global, count: usize) -> Result<Vec<u8>, OutOfMemory>
    ensures { IfOk result (λ buffer. length buffer.items ≡ count) }
{
    Ok(vec![in alloc; 0u8; count]?)
}

// Reads all that lies under a name, by as much as the buffer takes.
fn read_pieces<S: Shelf>(
    mut text: Text,
    shelf: &mut S,
    name: &str,
    limit: u64,
    buffer: &mut [u8],
) -> Result<Text, ReadIssue>
    requires empty { text ≡ [] }
    requires room { 0 < length buffer.old }
    ensures ok { IfOk result (λ text. WhereTold (S.held shelf.old name.now) (λ bytes. text ≡ bytes)) }
    ensures within { IfOk result (λ text. length text ≤ limit) }
    ensures too_long { IsErrOf result ReadIssue.TooLong
        → WhereTold (S.held shelf.old name.now) (λ bytes. limit < length bytes) }
    ensures fault { IsErrOf result ReadIssue.ReadFault
        → RoseAt (S.faults shelf.old) (S.faults shelf.new) Access.reading name.now }
    ensures later { NoneFell (S.faults shelf.old) (S.faults shelf.new) }
    ensures held { SameTold (S.held shelf.old) (S.held shelf.new) }
    ensures written { SameTold (S.written shelf.old) (S.written shelf.new) }
{
    loop {
        let at = text.len() as u64;
        let Ok(n) = shelf.read_at(name, at, buffer) else {
            return Err(ReadIssue::ReadFault);
        };
        if n == 0 {
            return Ok(text);
        }
        if n as u64 > limit - at {
            return Err(ReadIssue::TooLong);
        }
        if let Err(OutOfMemory) = text.append(&buffer[..n]) {
            return Err(ReadIssue::OutOfMemory);
        }
    }
}

/// Writes a text under a name, in place of what was written there. It is `Ok` wherever the shelf's count of
/// faults of writes under that name neither rises nor stands at its last value.
pub fn write_whole<S: Shelf>(shelf: &mut S, name: &str, text: &[u8]) -> Result<(), WriteFault>
    ensures ok { OnOk result (ChangesOne (S.written shelf.old) (S.written shelf.new) name.now
        (λ before after. after ≡ told_if S.tells text.now)) }
    ensures fault { OnErr result (ChangesOne (S.written shelf.old) (S.written shelf.new) name.now
        (λ before after. (after ≡ before) ⊎ ((k : ℕ) × (after ≡ told_if S.tells (take k text.now))))) }
    ensures cause { OnErr result (RoseAt (S.faults shelf.old) (S.faults shelf.new) Access.writing name.now) }
    ensures later { NoneFell (S.faults shelf.old) (S.faults shelf.new) }
    ensures held { SameTold (S.held shelf.old) (S.held shelf.new) }
{
    let Ok(()) = shelf.start(name) else {
        return Err(WriteFault);
    };
    let mut at = 0;
    while at < text.len() {
        let Ok(n) = shelf.append(name, &text[at..]) else {
            return Err(WriteFault);
        };
        at += n;
    }
    Ok(())
}

/// Gives a text to a sink. It is `Ok` wherever the sink's count of faults neither rises nor stands at its last
/// value.
pub fn put_whole<O: Sink>(out: &mut O, text: &[u8]) -> Result<(), WriteFault>
    ensures ok { OnOk result (O.given out.new ≡ appended text.now (O.given out.old)) }
    ensures fault { OnErr result ((k : ℕ) × (O.given out.new
        ≡ appended (take k text.now) (O.given out.old))) }
    ensures cause { OnErr result (Rose (O.faults out.old) (O.faults out.new)) }
    ensures later { O.faults out.old ≤ O.faults out.new }
{
    let mut at = 0;
    while at < text.len() {
        let Ok(n) = out.put(&text[at..]) else {
            return Err(WriteFault);
        };
        at += n;
    }
    Ok(())
}
