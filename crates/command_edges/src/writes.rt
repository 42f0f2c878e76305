ghost use Rattle.std.specs.Prelude.{◌≡◌, ◌≤◌, ℕ, ◌⊎◌, List, length, take, IfErr, OnErr, OnOk};
ghost use Rattle.edge_io.specs.Shelf.{ChangesOne, NoneFell, SameTold, appended, told_if};
ghost use Rattle.command_edges.specs.EdgeFaults.{StandsInPutting, StandsInWriting};
ghost use Rattle.command_edges.specs.Names.{IsOneOf, StandOnce, names_of};
ghost use Rattle.command_edges.specs.Seen.{shelf_seen, sink_seen};
ghost use Rattle.command_edges.specs.Texts.{AreWritten, StandsInWritings};

use command_faults::Fault;
use edge_io::shelf::Shelf;
use edge_io::sink::Sink;
use edge_io::whole::{put_whole, write_whole};
use texts::Text;

/// Writes a text under a name, in place of what was written there.
pub fn write_text<'a, S: Shelf>(shelf: &mut S, name: &'a str, text: &Text) -> Result<(), Fault<'a>>
    ensures ok { OnOk result (ChangesOne (S.written shelf.old) (S.written shelf.new) name.now
        (λ before after. after ≡ told_if S.tells text.now)) }
    ensures cut_short { OnErr result (ChangesOne (S.written shelf.old) (S.written shelf.new) name.now
        (λ before after. (after ≡ before) ⊎ ((k : ℕ) × (after ≡ told_if S.tells (take k text.now))))) }
    ensures fault { IfErr result (StandsInWriting name.now
        (shelf_seen S.tells S.held S.written S.faults shelf.old shelf.new)) }
    ensures held { SameTold (S.held shelf.old) (S.held shelf.new) }
    ensures later { NoneFell (S.faults shelf.old) (S.faults shelf.new) }
{
    let Ok(()) = write_whole(shelf, name, text.as_bytes()) else {
        return Err(Fault::WriteFault { name });
    };
    Ok(())
}

/// Writes the texts under these names, in order, up to the first that can't be written.
pub fn write_all<'a, S: Shelf>(
    shelf: &mut S,
    names: &[&'a str],
    texts: &[Text],
) -> Result<(), Fault<'a>>
    requires lengths { length texts.now ≡ length names.now }
    requires apart { StandOnce (names_of names.now) }
    ensures written { OnOk result (AreWritten (names_of names.now) texts.now
        (shelf_seen S.tells S.held S.written S.faults shelf.old shelf.new)) }
    ensures fault { IfErr result (StandsInWritings (names_of names.now) texts.now
        (shelf_seen S.tells S.held S.written S.faults shelf.old shelf.new)) }
    ensures others { (name : List ℕ) → (IsOneOf name (names_of names.now) → ⊥)
        → S.written shelf.new name ≡ S.written shelf.old name }
    ensures held { SameTold (S.held shelf.old) (S.held shelf.new) }
    ensures later { NoneFell (S.faults shelf.old) (S.faults shelf.new) }
{
    let [name, rest @ ..] = names else {
        return Ok(());
    };
    let [text, more @ ..] = texts else {
        return Ok(());
    };
    write_text(shelf, *name, text)?;
    write_all(shelf, rest, more)
}

/// Puts a text on the sink.
pub fn put_text<'a, O: Sink>(out: &mut O, text: &Text) -> Result<(), Fault<'a>>
    ensures ok { OnOk result (O.given out.new ≡ appended text.now (O.given out.old)) }
    ensures cut_short { OnErr result ((k : ℕ)
        × (O.given out.new ≡ appended (take k text.now) (O.given out.old))) }
    ensures fault { IfErr result (StandsInPutting (sink_seen O.given O.faults out.old out.new)) }
    ensures later { O.faults out.old ≤ O.faults out.new }
{
    let Ok(()) = put_whole(out, text.as_bytes()) else {
        return Err(Fault::WriteFault {
            name: "standard-output",
        });
    };
    Ok(())
}
