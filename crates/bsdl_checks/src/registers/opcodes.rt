// The opcodes of the design's own instructions, and those of the profile's.
ghost use Rattle.std.specs.Prelude.{◌≡◌, ◌∷◌, ◌++◌, [], IfOk, OnOk, map, position, if◌then◌else◌};
ghost use Rattle.bsdl_lexicon.specs.Names.{is_same_name};
ghost use Rattle.bsdl_lexicon.specs.NameKeys.{names_in};
ghost use Rattle.bsdl_device.specs.Rules as rule;

use bsdl_device::registers::RegisterEntry;
use bsdl_device::{Contents, OpcodeEntry};
use bsdl_lexicon::NameKey;
use indexmap::IndexMap;
use std::alloc::Global;
use std::marker::Model;
use texts::first_faults::first_places;
use texts::{OutOfMemory, Row, Text};

/// The entries of the design's own registers, found by their instructions.
#[derive(Drop)]
pub struct OwnTable<'a> {
    entries: &'a [RegisterEntry],
    places: IndexMap<NameKey<'a>, usize>,
}

impl<'a> Model for OwnTable<'a> {
    ghost use Rattle.std.specs.Prelude.{List};
    ghost use Rattle.bsdl_device.specs.declared.registers.values.RegisterEntry.{RegisterEntry};
    ghost use Rattle.bsdl_checks.specs.OwnNames.{FindsNames};

    ghost Value = { List RegisterEntry };

    ghost view = { λ t. t.entries.now };

    ghost invariant = { λ t. FindsNames t.entries.now t.places.entries };
}

fn instructions<'a>(
    alloc: Global,
    entries: &'a [RegisterEntry],
) -> Result<Vec<NameKey<'a>>, OutOfMemory>
    ensures { IfOk result (λ keys. names_in keys.items ≡ map (λ e. e.instruction) entries.now) }
{
    let mut keys = Vec::new(alloc);
    for entry in entries {
        keys.push(NameKey(entry.instruction.as_bytes()))?;
    }
    Ok(keys)
}

impl<'a> OwnTable<'a> {
    /// A table of the entries.
    pub fn of(alloc: Global, entries: &'a [RegisterEntry]) -> Result<OwnTable<'a>, OutOfMemory>
        ensures { IfOk result (λ table. table ≡ entries.now) }
    {
        let keys = instructions(alloc, entries)?;
        let places = first_places(alloc, &keys)?;
        Ok(OwnTable { entries, places })
    }

    fn position(&self, name: &[u8]) -> Option<usize>
        ensures { result ≡ position (λ e. is_same_name name.now e.instruction) self.now }
    {
        self.places.get(&NameKey(name)).copied()
    }

    /// Whether an entry has the instruction.
    pub fn has(&self, name: &[u8]) -> bool
        ensures { result ≡ rule.is_own self.now name.now }
    {
        self.position(name).is_some()
    }
}

fn copied(alloc: Global, opcode: &OpcodeEntry) -> Result<OpcodeEntry, OutOfMemory>
    ensures { IfOk result (λ made. made ≡ opcode.now) }
{
    Ok(OpcodeEntry {
        name: Text::from_bytes(alloc, opcode.name.as_bytes())?,
        bits: opcode.bits,
    })
}

// Adds a copy of the opcode where it is wanted.
fn push_wanted(
    alloc: Global,
    made: &mut Row<OpcodeEntry>,
    opcode: &OpcodeEntry,
    wanted: bool,
) -> Result<(), OutOfMemory>
    ensures { OnOk result (made.new ≡ made.old ++ (if wanted then opcode.now ∷ [] else [])) }
{
    if !wanted {
        return Ok(());
    }
    made.push(copied(alloc, opcode)?)
}

// The opcodes of the design's own instructions.
fn own_opcodes(
    alloc: Global,
    table: &OwnTable,
    opcodes: &[OpcodeEntry],
) -> Result<Row<OpcodeEntry>, OutOfMemory>
    ensures { IfOk result (λ made. made ≡ rule.own_opcodes table.now opcodes.now) }
{
    let mut made = Row::new(alloc);
    for opcode in opcodes {
        let own = table.has(opcode.name.as_bytes());
        push_wanted(alloc, &mut made, opcode, own)?;
    }
    Ok(made)
}

// The other opcodes.
fn base_opcodes(
    alloc: Global,
    table: &OwnTable,
    opcodes: &[OpcodeEntry],
) -> Result<Row<OpcodeEntry>, OutOfMemory>
    ensures { IfOk result (λ made. made ≡ rule.base_opcodes table.now opcodes.now) }
{
    let mut made = Row::new(alloc);
    for opcode in opcodes {
        let own = table.has(opcode.name.as_bytes());
        push_wanted(alloc, &mut made, opcode, !own)?;
    }
    Ok(made)
}

/// Contents without the opcodes of the design's own instructions, and these.
#[derive(Drop)]
pub struct PartedContents {
    pub contents: Contents,
    pub own: Row<OpcodeEntry>,
}

/// The contents without the opcodes of the entries' instructions, and these.
pub fn part_contents(
    alloc: Global,
    entries: &[RegisterEntry],
    contents: Contents,
) -> Result<PartedContents, OutOfMemory>
    ensures base { IfOk result (λ made. made.contents ≡ rule.base_contents contents entries.now) }
    ensures own { IfOk result (λ made. made.own ≡ rule.own_opcodes entries.now contents.opcodes) }
{
    let table = OwnTable::of(alloc, entries)?;
    let Contents {
        pin_map,
        opcodes,
        capture,
        idcode,
        usercode,
        access,
        rows,
    } = contents;
    let all = opcodes.as_slice();
    let own = own_opcodes(alloc, &table, all)?;
    let base = base_opcodes(alloc, &table, all)?;
    Ok(PartedContents {
        contents: Contents {
            pin_map,
            opcodes: base,
            capture,
            idcode,
            usercode,
            access,
            rows,
        },
        own,
    })
}
