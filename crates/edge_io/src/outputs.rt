ghost use Rattle.std.specs.Prelude.{◌≡◌, ◌↔◌, ◌⊎◌, ◌<◌, ◌≤◌, ◌-◌, ◌++◌, ℕ, List, [], Some, false, IfNone, IfSome, IsNone, IsSome, IsTrue, OnErr, OnOk, length, max, min, take, unwrap_or};
ghost use Rattle.edge_io.specs.Shelf.{ChangesOne, SameTold, appended};
ghost use Rattle.std.specs.Option.{option_copied};
ghost use Rattle.edge_io.specs.Outputs.{bytes_if_started, room_in, spare_in, written_in};

use crate::entries::{Entry, place_of, set_value};
use crate::reserved::Reserved;
use std::alloc::Global;
use texts::OutOfMemory;

/// What is written under a name that has room.
#[derive(Drop)]
pub struct Output {
    pub text: Reserved,
    pub started: bool,
}

impl Output {
    /// The bytes written, where it was started.
    pub fn written(&self) -> Option<&[u8]>
        ensures { option_copied result ≡ bytes_if_started self.now }
    {
        if !self.started {
            return None;
        }
        Some(self.text.as_bytes())
    }

    fn start(&mut self)
        ensures started { IsTrue self.new.started }
        ensures text { self.new.text ≡ record self.old.text { bytes = [] } }
    {
        self.started = true;
        self.text.clear();
    }

    // Adds what fits; nothing, where it wasn't started or no byte of a piece that has any fits.
    fn add(&mut self, piece: &[u8]) -> Option<usize>
        ensures none { IsNone result ↔ ((self.old.started ≡ false)
            ⊎ ((0 < length piece.now) × (self.old.text.room ≤ length self.old.text.bytes))) }
        ensures count { IfSome result (λ n.
            n ≡ min (length piece.now) (self.old.text.room - length self.old.text.bytes)) }
        ensures started { self.new.started ≡ self.old.started }
        ensures room { self.new.text.room ≡ self.old.text.room }
        ensures added { IfSome result (λ n.
            self.new.text ≡ record self.old.text { bytes = self.old.text.bytes ++ take n piece.now }) }
        ensures same { IfNone result (self.new ≡ self.old) }
    {
        if !self.started || (self.text.is_full() && !piece.is_empty()) {
            return None;
        }
        Some(self.text.take_in(piece))
    }
}

/// Raises the room of a name to this number of bytes where it was less.
pub fn make_room_for(
    alloc: Global,
    outputs: &mut Vec<Entry<Output>>,
    name: &[u8],
    bytes: usize,
) -> Result<(), OutOfMemory>
    ensures ok { OnOk result (ChangesOne (room_in outputs.old.items) (room_in outputs.new.items) name.now
        (λ before after. after ≡ Some (max (unwrap_or before 0) bytes))) }
    ensures written { SameTold (written_in outputs.old.items) (written_in outputs.new.items) }
    ensures err { OnErr result (outputs.new.items ≡ outputs.old.items) }
{
    if let Some(place) = place_of(outputs, name) {
        outputs[place].value.text.make_room(bytes)?;
        return Ok(());
    }
    let mut text = Reserved::new(alloc);
    text.make_room(bytes)?;
    let output = Output {
        text,
        started: false,
    };
    set_value(alloc, outputs, name, output)?;
    Ok(())
}

/// Starts the name, or answers false where it has no room.
pub fn start_output(outputs: &mut [Entry<Output>], name: &[u8]) -> bool
    ensures found { IsTrue result ↔ IsSome (room_in outputs.old name.now) }
    ensures started { IsTrue result → ChangesOne (written_in outputs.old)
        (written_in outputs.new) name.now
        (λ before after. after ≡ Some []) }
    ensures room { SameTold (room_in outputs.old) (room_in outputs.new) }
    ensures same { result ≡ false → outputs.new ≡ outputs.old }
{
    let Some(place) = place_of(outputs, name) else {
        return false;
    };
    outputs[place].value.start();
    true
}

/// Adds what fits to what was written under the name; nothing, where the name wasn't started or no byte of a piece
/// that has any fits.
pub fn add_to_output(outputs: &mut [Entry<Output>], name: &[u8], piece: &[u8]) -> Option<usize>
    ensures none { IsNone result ↔ (IsNone (written_in outputs.old name.now)
        ⊎ ((0 < length piece.now) × (spare_in outputs.old name.now ≡ 0))) }
    ensures count { IfSome result (λ n. n ≡ min (length piece.now) (spare_in outputs.old name.now)) }
    ensures added { IfSome result (λ n. ChangesOne (written_in outputs.old)
        (written_in outputs.new) name.now
        (λ before after. after ≡ appended (take n piece.now) before)) }
    ensures room { SameTold (room_in outputs.old) (room_in outputs.new) }
    ensures same { IfNone result (outputs.new ≡ outputs.old) }
{
    let place = place_of(outputs, name)?;
    outputs[place].value.add(piece)
}
