// The ports that a file declares, and the rules on their names.
ghost use Rattle.std.specs.Prelude.{◌≡◌, ◌++◌, ◌<◌, ◌^◌, ◌||◌, ◌∷◌, [], false, IfOk, OnOk, map, nat_lt, not};
ghost use Rattle.std.specs.List.{list_any};
ghost use Rattle.std.specs.Option.{option_map, option_map_or};
ghost use Rattle.bsdl_device.specs.Ports as declared;
ghost use Rattle.bsdl_lexicon.specs.Names.{is_same_name};
ghost use Rattle.bsdl_device.specs.Checks as rule;

use crate::names::is_repeated;
use crate::port_table::port_keys;
use bsdl_device::{DeclaredPort, File, PortDeclaration, PortRange, StringAttribute, WrittenRange};
use bsdl_lexicon::names::same_name;
use std::alloc::Global;
use texts::{OutOfMemory, Text};

const BIT_LIMIT: u64 = 4_096;

fn range_of(range: Option<WrittenRange>) -> Option<PortRange>
    ensures { result ≡ option_map declared.range_of range }
{
    match range {
        None => None,
        Some(range) => Some(PortRange {
            left: range.left,
            right: range.right,
        }),
    }
}

fn push_declared(
    alloc: Global,
    ports: &mut Vec<DeclaredPort>,
    declaration: &PortDeclaration,
) -> Result<(), OutOfMemory>
    ensures { OnOk result (ports.new.items ≡ ports.old.items
        ++ map (declared.port_declared declaration.now) declaration.now.names) }
{
    for name in declaration.names.as_slice() {
        ports.push(DeclaredPort {
            name: Text::from_bytes(alloc, name.as_bytes())?,
            mode: declaration.mode,
            range: range_of(declaration.range),
        })?;
    }
    Ok(())
}

/// The ports of a file in order, one for each name of a declaration.
pub fn declared_ports(alloc: Global, file: &File) -> Result<Vec<DeclaredPort>, OutOfMemory>
    ensures { IfOk result (λ ports. ports.items ≡ declared.declared_ports file.now) }
{
    let mut ports = Vec::new(alloc);
    for declaration in file.declarations.as_slice() {
        push_declared(alloc, &mut ports, declaration)?;
    }
    Ok(ports)
}

/// How many bits a port of the range has: 1 without a range, and 2^32 at most.
pub fn width(range: Option<PortRange>) -> u64
    ensures { result ≡ declared.width range }
{
    match range {
        None => 1,
        Some(range) => {
            if range.left <= range.right {
                (range.right - range.left) as u64 + 1
            } else {
                (range.left - range.right) as u64 + 1
            }
        }
    }
}

fn has_too_many_bits(ports: &[DeclaredPort]) -> bool
    ensures { result ≡ nat_lt 4096 (declared.port_bits ports.now) }
{
    let mut left = BIT_LIMIT;
    for port in ports {
        let bits = width(port.range);
        if left < bits {
            return true;
        }
        left -= bits;
    }
    false
}

fn names_unit(file: &File, name: &[u8]) -> bool
    ensures { result ≡ (is_same_name name.now file.now.entity
        || is_same_name name.now file.now.«package») }
{
    same_name(name, file.entity.as_bytes()) || same_name(name, file.package.as_bytes())
}

fn is_named_as_unit(file: &File, ports: &[DeclaredPort]) -> bool
    ensures { result ≡ list_any (λ name. is_same_name name file.now.entity
        || is_same_name name file.now.«package») (declared.port_names ports.now) }
{
    for port in ports {
        if names_unit(file, port.name.as_bytes()) {
            return true;
        }
    }
    false
}

fn is_other(file: &File, entity: &Text) -> bool
    ensures { result ≡ not (is_same_name entity.now file.now.entity) }
{
    !same_name(entity.as_bytes(), file.entity.as_bytes())
}

// An attribute that may be left out is of another entity.
fn code_is_other(file: &File, code: &Option<StringAttribute>) -> bool
    ensures { result ≡ option_map_or (λ a. not (is_same_name a.entity file.now.entity)) code.now false }
{
    match code {
        None => false,
        Some(attribute) => is_other(file, &attribute.entity),
    }
}

#[tactic(auto, using(crate::proofs::Entries::along_codes))]
fn names_other_entity(file: &File) -> bool
    ensures { result ≡ rule.names_other_entity file.now }
{
    is_other(file, &file.conformance_entity)
        || is_other(file, &file.pin_map_entity)
        || is_other(file, &file.length.entity)
        || is_other(file, &file.opcodes.entity)
        || is_other(file, &file.capture.entity)
        || is_other(file, &file.access.entity)
        || is_other(file, &file.boundary_length.entity)
        || is_other(file, &file.boundary.entity)
        || is_other(file, &file.end)
        || code_is_other(file, &file.idcode)
        || code_is_other(file, &file.usercode)
}

fn is_named_twice(alloc: Global, ports: &[DeclaredPort]) -> Result<bool, OutOfMemory>
    ensures { IfOk result (λ twice. twice ≡ rule.is_repeated (declared.port_names ports.now)) }
{
    let names = port_keys(alloc, ports)?;
    is_repeated(alloc, &names)
}

/// A name stands for two things, an attribute is of another entity, or there are more than 4,096 bits.
pub fn name_fails(alloc: Global, file: &File, ports: &[DeclaredPort]) -> Result<bool, OutOfMemory>
    requires { ports.now ≡ declared.declared_ports file.now }
    ensures { IfOk result (λ fails. fails ≡ rule.name_fails file.now) }
{
    let twice = is_named_twice(alloc, ports)?;
    Ok(
        twice
            || is_named_as_unit(file, ports)
            || has_too_many_bits(ports)
            || names_other_entity(file)
            || !same_name(file.default_package.as_bytes(), file.package.as_bytes()),
    )
}
