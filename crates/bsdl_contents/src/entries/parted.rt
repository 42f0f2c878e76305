// The file without the entries of the design's own registers.
ghost use Rattle.std.specs.Prelude.{◌≡◌, ◌<◌, ◌≤◌, length, IfOk, OnOk, IfSome, Some, None};
ghost use Rattle.bsdl_device.specs.Runs.{content_words};
ghost use Rattle.bsdl_device.specs.Shape as shape;
ghost use Rattle.bsdl_contents.specs.OwnPlaces.{place_from};
ghost use Rattle.bsdl_contents.specs.EntriesReader.{entries_in};
ghost use Rattle.bsdl_contents.specs.BaseFile as parting;

use crate::entries::entries::entries;
use crate::entries::own_place::own_place;
use crate::fault::PartFault;
use crate::sections::joined;
use bsdl_device::File;
use bsdl_device::registers::RegisterEntry;
use std::alloc::Global;
use texts::{OutOfMemory, Row, Text};

/// A file without the entries of the design's own registers, and these entries.
#[derive(Drop)]
pub struct Parted {
    pub file: File,
    pub entries: Row<RegisterEntry>,
}

/// Entries of the design's own, and the place of the comma before them.
#[derive(Drop)]
pub struct OwnEntries {
    pub place: usize,
    pub entries: Row<RegisterEntry>,
}

// The entries that the bytes hold, or none.
fn held_entries(alloc: Global, bytes: &[u8]) -> Result<Option<Row<RegisterEntry>>, OutOfMemory>
    ensures { IfOk result (λ held. held ≡ entries_in (content_words bytes.now)) }
{
    match entries(alloc, bytes) {
        Ok(entries) => Ok(Some(entries)),
        Err(PartFault::Wrong) => Ok(None),
        Err(PartFault::OutOfMemory) => Err(OutOfMemory),
    }
}

// The entries behind the comma at this place, where there are some.
fn own_behind(alloc: Global, bytes: &[u8], place: usize) -> Result<Option<OwnEntries>, OutOfMemory>
    requires there { Some place ≡ place_from None 0 bytes.now }
    requires within { place < length bytes.now }
    ensures own { IfOk result (λ own. own ≡ parting.own_in bytes.now) }
    ensures before { IfOk result (λ own. IfSome own (λ o. o.place < length bytes.now)) }
{
    let held = held_entries(alloc, &bytes[place + 1..])?;
    match held {
        None => Ok(None),
        Some(entries) => Ok(Some(OwnEntries { place, entries })),
    }
}

// The entries of the design's own behind the others, where the bytes hold some.
fn own_entries(alloc: Global, bytes: &[u8]) -> Result<Option<OwnEntries>, OutOfMemory>
    ensures own { IfOk result (λ own. own ≡ parting.own_in bytes.now) }
    ensures before { IfOk result (λ own. IfSome own (λ o. o.place < length bytes.now)) }
{
    match own_place(bytes) {
        None => Ok(None),
        Some(place) => own_behind(alloc, bytes, place),
    }
}

// The bytes as so many strings: one, and empty ones behind it.
#[tactic(auto, using(crate::proofs::EntriesTold::joined_one, crate::proofs::EntriesTold::joined_more, crate::proofs::EntriesTold::one_more))]
fn as_strings(alloc: Global, bytes: &[u8], count: usize) -> Result<Row<Text>, OutOfMemory>
    requires { 0 < count }
    ensures joined { IfOk result (λ strings. shape.joined strings ≡ bytes.now) }
    ensures many { IfOk result (λ strings. length strings ≡ count) }
{
    let mut strings = Row::new(alloc);
    strings.push(Text::from_bytes(alloc, bytes)?)?;
    while strings.len() < count {
        strings.push(Text::new(alloc))?;
    }
    Ok(strings)
}

// Puts these strings in the place of those of REGISTER_ACCESS.
fn set_access(file: &mut File, strings: Row<Text>)
    ensures { file.new ≡ parting.with_access file.old strings }
{
    file.access.strings = strings;
}

// Leaves the bytes before this place in REGISTER_ACCESS.
fn keep_front(alloc: Global, file: &mut File, whole: &[u8], place: usize) -> Result<(), OutOfMemory>
    requires some { 0 < length file.old.access.strings }
    requires before { place ≤ length whole.now }
    ensures { OnOk result (parting.KeepsFront file.old file.new whole.now place) }
{
    let count = file.access.strings.len();
    let strings = as_strings(alloc, &whole[..place], count)?;
    set_access(file, strings);
    Ok(())
}

// Takes the entries of the design's own registers out of the file.
fn take_own(alloc: Global, file: &mut File) -> Result<Row<RegisterEntry>, OutOfMemory>
    requires { 0 < length file.old.access.strings }
    ensures { IfOk result (λ entries. parting.IsPartedAs file.old file.new entries) }
{
    let bytes = joined(alloc, file.access.strings.as_slice())?;
    let whole = bytes.as_bytes();
    let own = own_entries(alloc, whole)?;
    match own {
        None => Ok(Row::new(alloc)),
        Some(own) => {
            keep_front(alloc, file, whole, own.place)?;
            Ok(own.entries)
        }
    }
}

/// The file without the entries of the design's own registers. Where its strings hold what they can't, it is
/// the file itself.
pub fn without_own(alloc: Global, mut file: File) -> Result<Parted, OutOfMemory>
    requires { 0 < length file.access.strings }
    ensures { IfOk result (λ made. parting.IsParted file made) }
{
    let entries = take_own(alloc, &mut file)?;
    Ok(Parted { file, entries })
}
