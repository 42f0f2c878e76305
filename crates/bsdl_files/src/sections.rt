ghost use Rattle.bsdl_files.specs.Parsed.{Gives};
ghost use Rattle.bsdl_files.specs.Sections.{entity_at, generic_at, conformance_at, pin_map_at, constant_at, end_at, mapping_at, tap_at, scan_at, instruction_at, boundary_at, sections_at};

use crate::attributes::{integer_attribute, registers, string_attribute};
use crate::fault::ParseFault;
use crate::marks::{Mark, marks};
use crate::parts::{closed_strings, name_between, string};
use crate::ports::port_section;
use crate::scan::{clock_port, frequency, scan_port, stop};
use bsdl_device::{File, IntegerAttribute, Stop, StringAttribute, TapNames};
use bsdl_lexicon::{BsdlReader, BsdlSymbol};
use std::alloc::Global;
use texts::{Row, Text};

/// The map from ports to pins, and what stands before it.
#[derive(Drop)]
struct MappingSections {
    conformance_entity: Text,
    pin_map_entity: Text,
    package: Text,
    pin_map: Row<Text>,
}

/// The scan port, and how fast its clock is and where it may stop.
#[derive(Drop)]
struct ScanSections {
    tap: TapNames,
    clock: Text,
    stop: Stop,
}

/// The instruction register.
#[derive(Drop)]
struct InstructionSections {
    length: IntegerAttribute,
    opcodes: StringAttribute,
    capture: StringAttribute,
}

/// The boundary register, and the file's end.
#[derive(Drop)]
struct BoundarySections {
    length: IntegerAttribute,
    rows: StringAttribute,
    end: Text,
}

#[tactic(auto, unfolding(crate::specs::Sections::entity_at))]
fn entity_section(alloc: Global, reader: &mut BsdlReader) -> Result<Text, ParseFault>
    ensures { Gives result reader.new (entity_at reader.old) }
{
    name_between(alloc, reader, &[Mark::Key(b"entity")], &[Mark::Key(b"is")])
}

#[tactic(auto, unfolding(crate::specs::Sections::generic_at))]
fn generic_section(alloc: Global, reader: &mut BsdlReader) -> Result<Text, ParseFault>
    ensures { Gives result reader.new (generic_at reader.old) }
{
    marks(
        reader,
        &[
            Mark::Key(b"generic"),
            Mark::Symbol(BsdlSymbol::LeftParenthesis),
            Mark::Key(b"PHYSICAL_PIN_MAP"),
            Mark::Symbol(BsdlSymbol::Colon),
            Mark::Key(b"string"),
            Mark::Becomes,
        ],
    )?;
    let package = string(alloc, reader)?;
    marks(
        reader,
        &[
            Mark::Symbol(BsdlSymbol::RightParenthesis),
            Mark::Symbol(BsdlSymbol::Semicolon),
        ],
    )?;
    Ok(package)
}

#[tactic(auto, unfolding(crate::specs::Sections::conformance_at))]
fn conformance_section(alloc: Global, reader: &mut BsdlReader) -> Result<Text, ParseFault>
    ensures { Gives result reader.new (conformance_at reader.old) }
{
    let before = [
        Mark::Key(b"use"),
        Mark::Key(b"STD_1149_1_2001"),
        Mark::Symbol(BsdlSymbol::Dot),
        Mark::Key(b"all"),
        Mark::Symbol(BsdlSymbol::Semicolon),
        Mark::Key(b"attribute"),
        Mark::Key(b"COMPONENT_CONFORMANCE"),
        Mark::Key(b"of"),
    ];
    name_between(
        alloc,
        reader,
        &before,
        &[
            Mark::Symbol(BsdlSymbol::Colon),
            Mark::Key(b"entity"),
            Mark::Key(b"is"),
            Mark::Quoted(b"STD_1149_1_2001"),
            Mark::Symbol(BsdlSymbol::Semicolon),
        ],
    )
}

#[tactic(auto, unfolding(crate::specs::Sections::pin_map_at))]
fn pin_map_section(alloc: Global, reader: &mut BsdlReader) -> Result<Text, ParseFault>
    ensures { Gives result reader.new (pin_map_at reader.old) }
{
    let before = [
        Mark::Key(b"attribute"),
        Mark::Key(b"PIN_MAP"),
        Mark::Key(b"of"),
    ];
    name_between(
        alloc,
        reader,
        &before,
        &[
            Mark::Symbol(BsdlSymbol::Colon),
            Mark::Key(b"entity"),
            Mark::Key(b"is"),
            Mark::Key(b"PHYSICAL_PIN_MAP"),
            Mark::Symbol(BsdlSymbol::Semicolon),
        ],
    )
}

// The constant that is the pin map, up to its strings.
#[tactic(auto, unfolding(crate::specs::Sections::constant_at))]
fn constant(alloc: Global, reader: &mut BsdlReader) -> Result<Text, ParseFault>
    ensures { Gives result reader.new (constant_at reader.old) }
{
    name_between(
        alloc,
        reader,
        &[Mark::Key(b"constant")],
        &[
            Mark::Symbol(BsdlSymbol::Colon),
            Mark::Key(b"PIN_MAP_STRING"),
            Mark::Becomes,
        ],
    )
}

#[tactic(auto, unfolding(crate::specs::Sections::end_at))]
fn end_section(alloc: Global, reader: &mut BsdlReader) -> Result<Text, ParseFault>
    ensures { Gives result reader.new (end_at reader.old) }
{
    name_between(
        alloc,
        reader,
        &[Mark::Key(b"end")],
        &[Mark::Symbol(BsdlSymbol::Semicolon)],
    )
}

#[tactic(auto, unfolding(crate::specs::Sections::mapping_at, crate::specs::Parsed::then))]
fn mapping(alloc: Global, reader: &mut BsdlReader) -> Result<MappingSections, ParseFault>
    ensures { Gives result reader.new (mapping_at reader.old) }
{
    let conformance_entity = conformance_section(alloc, reader)?;
    let pin_map_entity = pin_map_section(alloc, reader)?;
    let package = constant(alloc, reader)?;
    let pin_map = closed_strings(alloc, reader)?;
    Ok(MappingSections {
        conformance_entity,
        pin_map_entity,
        package,
        pin_map,
    })
}

#[tactic(auto, unfolding(crate::specs::Sections::tap_at, crate::specs::Parsed::then))]
fn tap(alloc: Global, reader: &mut BsdlReader) -> Result<TapNames, ParseFault>
    ensures { Gives result reader.new (tap_at reader.old) }
{
    let tdi = scan_port(alloc, reader, b"TAP_SCAN_IN")?;
    let tms = scan_port(alloc, reader, b"TAP_SCAN_MODE")?;
    let tdo = scan_port(alloc, reader, b"TAP_SCAN_OUT")?;
    let trst = scan_port(alloc, reader, b"TAP_SCAN_RESET")?;
    let tck = clock_port(alloc, reader)?;
    Ok(TapNames {
        tdi,
        tms,
        tdo,
        trst,
        tck,
    })
}

#[tactic(auto, unfolding(crate::specs::Sections::scan_at, crate::specs::Parsed::then))]
fn scan(alloc: Global, reader: &mut BsdlReader) -> Result<ScanSections, ParseFault>
    ensures { Gives result reader.new (scan_at reader.old) }
{
    let tap = tap(alloc, reader)?;
    let clock = frequency(alloc, reader)?;
    let stop = stop(reader)?;
    Ok(ScanSections { tap, clock, stop })
}

#[tactic(auto, unfolding(crate::specs::Sections::instruction_at, crate::specs::Parsed::then))]
fn instruction(alloc: Global, reader: &mut BsdlReader) -> Result<InstructionSections, ParseFault>
    ensures { Gives result reader.new (instruction_at reader.old) }
{
    let length = integer_attribute(alloc, reader, b"INSTRUCTION_LENGTH")?;
    let opcodes = string_attribute(alloc, reader, b"INSTRUCTION_OPCODE")?;
    let capture = string_attribute(alloc, reader, b"INSTRUCTION_CAPTURE")?;
    Ok(InstructionSections {
        length,
        opcodes,
        capture,
    })
}

#[tactic(auto, unfolding(crate::specs::Sections::boundary_at, crate::specs::Parsed::then))]
fn boundary(alloc: Global, reader: &mut BsdlReader) -> Result<BoundarySections, ParseFault>
    ensures { Gives result reader.new (boundary_at reader.old) }
{
    let length = integer_attribute(alloc, reader, b"BOUNDARY_LENGTH")?;
    let rows = string_attribute(alloc, reader, b"BOUNDARY_REGISTER")?;
    let end = end_section(alloc, reader)?;
    Ok(BoundarySections { length, rows, end })
}

/// The file of the words from here on; the reader then stands behind it, or where the fault is.
#[tactic(auto, unfolding(crate::specs::Sections::sections_at, crate::specs::Parsed::then))]
pub fn file(alloc: Global, reader: &mut BsdlReader) -> Result<File, ParseFault>
    ensures { Gives result reader.new (sections_at reader.old) }
{
    let entity = entity_section(alloc, reader)?;
    let default_package = generic_section(alloc, reader)?;
    let declarations = port_section(alloc, reader)?;
    let mapping = mapping(alloc, reader)?;
    let scan = scan(alloc, reader)?;
    let instruction = instruction(alloc, reader)?;
    let registers = registers(alloc, reader)?;
    let boundary = boundary(alloc, reader)?;
    Ok(File {
        entity,
        default_package,
        declarations,
        conformance_entity: mapping.conformance_entity,
        pin_map_entity: mapping.pin_map_entity,
        package: mapping.package,
        pin_map: mapping.pin_map,
        tap: scan.tap,
        clock: scan.clock,
        stop: scan.stop,
        length: instruction.length,
        opcodes: instruction.opcodes,
        capture: instruction.capture,
        idcode: registers.idcode,
        usercode: registers.usercode,
        access: registers.access,
        boundary_length: boundary.length,
        boundary: boundary.rows,
        end: boundary.end,
    })
}
