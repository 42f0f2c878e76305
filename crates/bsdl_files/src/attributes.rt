ghost use Rattle.bsdl_files.specs.Sections.{integer_attribute_at, string_attribute_at, registers_at};
ghost use Rattle.bsdl_files.specs.Parsed.{Gives, GivesAs};
ghost use Rattle.bsdl_files.specs.Rests.{entity_after, strings_after, user_and_access_at, access_at, user_registers_at, code_and_user_at, user_alone_at, user_pair, register_pair};
ghost use Rattle.bsdl_files.specs.Marks.{patterns};

use crate::fault::ParseFault;
use crate::marks::{Mark, marks};
use crate::parts::{closed_strings, integer, name_between};
use bsdl_device::{IntegerAttribute, StringAttribute};
use bsdl_lexicon::{BsdlReader, BsdlSymbol};
use std::alloc::Global;
use texts::Text;

// The entity that an attribute is of, behind these marks.
fn entity(alloc: Global, reader: &mut BsdlReader, before: &[Mark]) -> Result<Text, ParseFault>
    ensures { Gives result reader.new (entity_after (patterns before.now) reader.old) }
{
    name_between(
        alloc,
        reader,
        before,
        &[
            Mark::Symbol(BsdlSymbol::Colon),
            Mark::Key(b"entity"),
            Mark::Key(b"is"),
        ],
    )
}

/// An attribute of this kind, whose value is an integer.
#[tactic(auto, unfolding(crate::specs::Sections::integer_attribute_at))]
pub fn integer_attribute(
    alloc: Global,
    reader: &mut BsdlReader,
    kind: &[u8],
) -> Result<IntegerAttribute, ParseFault>
    ensures { Gives result reader.new (integer_attribute_at kind.now reader.old) }
{
    let entity = entity(
        alloc,
        reader,
        &[Mark::Key(b"attribute"), Mark::Key(kind), Mark::Key(b"of")],
    )?;
    let value = integer(reader)?;
    marks(reader, &[Mark::Symbol(BsdlSymbol::Semicolon)])?;
    Ok(IntegerAttribute { entity, value })
}

// An attribute whose value is strings, where these marks stand before its entity.
#[tactic(auto, unfolding(crate::specs::Sections::closed_strings_at))]
fn strings_attribute_after(
    alloc: Global,
    reader: &mut BsdlReader,
    before: &[Mark],
) -> Result<StringAttribute, ParseFault>
    ensures { Gives result reader.new (strings_after (patterns before.now) reader.old) }
{
    let entity = entity(alloc, reader, before)?;
    let strings = closed_strings(alloc, reader)?;
    Ok(StringAttribute { entity, strings })
}

/// An attribute of this kind, whose value is strings.
#[tactic(auto, unfolding(crate::specs::Sections::string_attribute_at))]
pub fn string_attribute(
    alloc: Global,
    reader: &mut BsdlReader,
    kind: &[u8],
) -> Result<StringAttribute, ParseFault>
    ensures { Gives result reader.new (string_attribute_at kind.now reader.old) }
{
    strings_attribute_after(
        alloc,
        reader,
        &[Mark::Key(b"attribute"), Mark::Key(kind), Mark::Key(b"of")],
    )
}

/// The identification register's code and usercode, where there are any, and how the registers are accessed.
#[derive(Drop)]
pub struct RegisterAttributes {
    pub idcode: Option<StringAttribute>,
    pub usercode: Option<StringAttribute>,
    pub access: StringAttribute,
}

// The usercode and how the registers are accessed.
#[derive(Drop)]
struct UserAttributes {
    usercode: Option<StringAttribute>,
    access: StringAttribute,
}

// Both attributes, behind the kind of the first.
fn user_and_access(alloc: Global, reader: &mut BsdlReader) -> Result<UserAttributes, ParseFault>
    ensures { GivesAs user_pair result reader.new (user_and_access_at reader.old) }
{
    let usercode = strings_attribute_after(alloc, reader, &[Mark::Key(b"of")])?;
    marks(reader, &[Mark::Key(b"attribute")])?;
    marks(reader, &[Mark::Key(b"REGISTER_ACCESS")])?;
    let access = strings_attribute_after(alloc, reader, &[Mark::Key(b"of")])?;
    Ok(UserAttributes {
        usercode: Some(usercode),
        access,
    })
}

// How the registers are accessed, behind the key word that begins the attribute.
fn access_alone(alloc: Global, reader: &mut BsdlReader) -> Result<UserAttributes, ParseFault>
    ensures { GivesAs user_pair result reader.new (access_at reader.old) }
{
    marks(reader, &[Mark::Key(b"REGISTER_ACCESS")])?;
    let access = strings_attribute_after(alloc, reader, &[Mark::Key(b"of")])?;
    Ok(UserAttributes {
        usercode: None,
        access,
    })
}

// The usercode, which may be left out, and register access, behind the key word that begins the first attribute.
fn user_registers(alloc: Global, reader: &mut BsdlReader) -> Result<UserAttributes, ParseFault>
    ensures { GivesAs user_pair result reader.new (user_registers_at reader.old) }
{
    if reader.take_key(b"USERCODE_REGISTER") {
        user_and_access(alloc, reader)
    } else {
        access_alone(alloc, reader)
    }
}

// The code and what follows, behind the kind of the first attribute.
fn code_and_user(alloc: Global, reader: &mut BsdlReader) -> Result<RegisterAttributes, ParseFault>
    ensures { GivesAs register_pair result reader.new (code_and_user_at reader.old) }
{
    let idcode = strings_attribute_after(alloc, reader, &[Mark::Key(b"of")])?;
    marks(reader, &[Mark::Key(b"attribute")])?;
    let user = user_registers(alloc, reader)?;
    Ok(RegisterAttributes {
        idcode: Some(idcode),
        usercode: user.usercode,
        access: user.access,
    })
}

// What follows alone, behind the key word that begins the attribute.
fn user_alone(alloc: Global, reader: &mut BsdlReader) -> Result<RegisterAttributes, ParseFault>
    ensures { GivesAs register_pair result reader.new (user_alone_at reader.old) }
{
    let user = user_registers(alloc, reader)?;
    Ok(RegisterAttributes {
        idcode: None,
        usercode: user.usercode,
        access: user.access,
    })
}

/// The identification register's attributes, each of which may be left out, and register access.
#[tactic(auto, unfolding(crate::specs::Sections::registers_at))]
pub fn registers(alloc: Global, reader: &mut BsdlReader) -> Result<RegisterAttributes, ParseFault>
    ensures { GivesAs register_pair result reader.new (registers_at reader.old) }
{
    marks(reader, &[Mark::Key(b"attribute")])?;
    if reader.take_key(b"IDCODE_REGISTER") {
        code_and_user(alloc, reader)
    } else {
        user_alone(alloc, reader)
    }
}
