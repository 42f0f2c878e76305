// Flat names in flat order: the first that is too long, or came before.
ghost use Rattle.std.specs.Prelude.{◌≡◌, ◌≤◌, ◌||◌, ℕ, List, [], ◌∷◌, map, length, take, IfOk, IsTrue};
ghost use Rattle.std.specs.List.{flat_map};
ghost use Rattle.std.specs.Option.{option_map_or};
ghost use Rattle.texts.specs.Repeated.{has_name};
ghost use Rattle.link_model.specs.Faults as linked;
ghost use Rattle.hier_model.specs.Visits.{has_levels};
ghost use Rattle.hier_model.specs.Walks.{texts, turn_of, path_after};
ghost use Rattle.hier_model.specs.Names as names;
ghost use Rattle.hier_model.specs.Entries.{level_limit, turn_places};
ghost use Rattle.hier_model.specs.Faults as faults;
ghost use Rattle.hier_model.specs.Faults.{enters};
ghost use Rattle.hier_flatten.specs.Visited.{IsListed};
ghost use Rattle.hier_flatten.specs.NameChecks as checks;
ghost use Rattle.hier_flatten.specs.NameChecks.{Checks, checks_at};

use crate::names::flat_name;
use crate::nets::{NetTable, NetTables};
use hier_model::HierFault;
use hier_model::walk::{Step, Turn, Walk};
use link_arena::name_table::NameTable;
use std::alloc::Global;
use texts::{OutOfMemory, Text};
use verilog_tree::{Bit, Gate, Instance, Item, Link, Module, Operand, Port, Wire};

/// The longest name, in bytes.
const NAME_LIMIT: usize = 255;

// Whether a name is too long, or came before.
fn is_taken(seen: &NameTable, name: &[u8]) -> bool
    ensures { result ≡ (faults.is_long name.now || has_name seen.now name.now) }
{
    name.len() > NAME_LIMIT || seen.find(name).is_some()
}

// Enters a flat name; one that is too long, or came before, is at fault.
fn enter(
    alloc: Global,
    seen: &mut NameTable,
    at: &[&[u8]],
    name: &[u8],
) -> Result<Option<HierFault>, OutOfMemory>
    ensures { IfOk result (λ fault. (declared : List (List ℕ)) → Checks declared seen.old (enters (names.flat_name
        (texts at.now) name.now) ∷ []) fault seen.new) }
{
    let flat = flat_name(alloc, at, name)?;
    if is_taken(seen, flat.as_bytes()) {
        return Ok(Some(HierFault::FlatName { name: flat }));
    }
    seen.enter(flat.as_bytes())?;
    Ok(None)
}

fn enter_ports(
    alloc: Global,
    seen: &mut NameTable,
    at: &[&[u8]],
    ports: &[Port],
) -> Result<Option<HierFault>, OutOfMemory>
    ensures { IfOk result (λ fault. (declared : List (List ℕ)) → Checks declared seen.old (checks.port_checks
        (texts at.now) ports.now) fault seen.new) }
{
    for port in ports {
        match enter(alloc, seen, at, port.name.as_bytes())? {
            Some(fault) => return Ok(Some(fault)),
            None => {}
        }
    }
    Ok(None)
}

fn enter_wires(
    alloc: Global,
    seen: &mut NameTable,
    at: &[&[u8]],
    wires: &[Wire],
) -> Result<Option<HierFault>, OutOfMemory>
    ensures { IfOk result (λ fault. (declared : List (List ℕ)) → Checks declared seen.old (checks.wire_checks
        (texts at.now) wires.now) fault seen.new) }
{
    for wire in wires {
        match enter(alloc, seen, at, wire.name.as_bytes())? {
            Some(fault) => return Ok(Some(fault)),
            None => {}
        }
    }
    Ok(None)
}

// The ports and wires of the module at an occurrence.
fn enter_nets(
    alloc: Global,
    seen: &mut NameTable,
    at: &[&[u8]],
    module: &Module,
) -> Result<Option<HierFault>, OutOfMemory>
    ensures { IfOk result (λ fault. (declared : List (List ℕ)) → Checks declared seen.old (checks.place_checks
        (texts at.now) module.now) fault seen.new) }
{
    match enter_ports(alloc, seen, at, module.ports.as_slice())? {
        Some(fault) => Ok(Some(fault)),
        None => enter_wires(alloc, seen, at, module.wires.as_slice()),
    }
}

// Whether a name is among the first so many.
fn is_declared(seen: &NameTable, declared: u64, name: &[u8]) -> bool
    ensures { result ≡ has_name (take declared seen.now) name.now }
{
    match seen.find(name) {
        Some(number) => u64::from(number) < declared,
        None => false,
    }
}

// Whether a name is too long, or is among the first so many.
fn is_barred(seen: &NameTable, declared: u64, name: &[u8]) -> bool
    ensures { result ≡ (faults.is_long name.now || has_name (take declared seen.now) name.now) }
{
    name.len() > NAME_LIMIT || is_declared(seen, declared, name)
}

// What items are looked at against: the names so far, of which the first are those of ports and wires, and the nets
// of the module.
#[derive(Clone, Copy)]
struct Surroundings<'a, 'b> {
    at: &'a [&'b [u8]],
    nets: &'a NetTable<'b>,
    declared: u64,
}

// A net that an item names and its module doesn't declare: too long, or a port's or wire's.
fn refer(
    alloc: Global,
    seen: &NameTable,
    around: &Surroundings,
    bit: &Bit,
) -> Result<Option<HierFault>, OutOfMemory>
    ensures { IfOk result (λ fault. fault ≡ faults.bad_name_after (take around.now.declared seen.now) seen.now
        (faults.net_check (texts around.now.at.now) around.now.nets.now bit.now)) }
{
    if around.nets.range(bit.net.as_bytes()).is_some() {
        return Ok(None);
    }
    let flat = flat_name(alloc, around.at, bit.net.as_bytes())?;
    if is_barred(seen, around.declared, flat.as_bytes()) {
        return Ok(Some(HierFault::FlatName { name: flat }));
    }
    Ok(None)
}

fn refer_operand(
    alloc: Global,
    seen: &NameTable,
    around: &Surroundings,
    operand: &Operand,
) -> Result<Option<HierFault>, OutOfMemory>
    ensures { IfOk result (λ fault. fault ≡ faults.bad_name_after (take around.now.declared seen.now) seen.now
        (checks.net_checks (texts around.now.at.now) around.now.nets.now (linked.operand_bits operand.now))) }
{
    match operand {
        Operand::Bit(bit) => refer(alloc, seen, around, bit),
        Operand::Const(_) => Ok(None),
    }
}

fn refer_operands(
    alloc: Global,
    seen: &NameTable,
    around: &Surroundings,
    operands: &[Operand],
) -> Result<Option<HierFault>, OutOfMemory>
    ensures { IfOk result (λ fault. fault ≡ faults.bad_name_after (take around.now.declared seen.now) seen.now
        (checks.net_checks (texts around.now.at.now) around.now.nets.now (flat_map linked.operand_bits operands.now))) }
{
    for operand in operands {
        match refer_operand(alloc, seen, around, operand)? {
            Some(fault) => return Ok(Some(fault)),
            None => {}
        }
    }
    Ok(None)
}

fn refer_link(
    alloc: Global,
    seen: &NameTable,
    around: &Surroundings,
    link: &Link,
) -> Result<Option<HierFault>, OutOfMemory>
    ensures { IfOk result (λ fault. fault ≡ faults.bad_name_after (take around.now.declared seen.now) seen.now
        (checks.net_checks (texts around.now.at.now) around.now.nets.now (linked.link_bits link.now))) }
{
    match &link.operand {
        Some(operand) => refer_operand(alloc, seen, around, operand),
        None => Ok(None),
    }
}

fn refer_links(
    alloc: Global,
    seen: &NameTable,
    around: &Surroundings,
    links: &[Link],
) -> Result<Option<HierFault>, OutOfMemory>
    ensures { IfOk result (λ fault. fault ≡ faults.bad_name_after (take around.now.declared seen.now) seen.now
        (checks.net_checks (texts around.now.at.now) around.now.nets.now (flat_map linked.link_bits links.now))) }
{
    for link in links {
        match refer_link(alloc, seen, around, link)? {
            Some(fault) => return Ok(Some(fault)),
            None => {}
        }
    }
    Ok(None)
}

// The name of a gate, if it has one.
fn enter_own(
    alloc: Global,
    seen: &mut NameTable,
    at: &[&[u8]],
    name: &Option<Text>,
) -> Result<Option<HierFault>, OutOfMemory>
    ensures { IfOk result (λ fault. (declared : List (List ℕ)) → Checks declared seen.old (option_map_or
        (λ name. enters (names.flat_name (texts at.now) name) ∷ []) name.now []) fault seen.new) }
{
    match name {
        Some(name) => enter(alloc, seen, at, name.as_bytes()),
        None => Ok(None),
    }
}

fn check_gate(
    alloc: Global,
    seen: &mut NameTable,
    around: &Surroundings,
    gate: &Gate,
) -> Result<Option<HierFault>, OutOfMemory>
    requires { around.now.declared ≤ length seen.old }
    ensures { IfOk result (λ fault. Checks (take around.now.declared seen.old) seen.old (faults.item_checks
        (texts around.now.at.now) around.now.nets.now (Item.Gate gate.now)) fault seen.new) }
{
    match enter_own(alloc, seen, around.at, &gate.name)? {
        Some(fault) => return Ok(Some(fault)),
        None => {}
    }
    match refer(alloc, seen, around, &gate.output)? {
        Some(fault) => return Ok(Some(fault)),
        None => {}
    }
    refer_operands(alloc, seen, around, gate.inputs.as_slice())
}

fn check_instance(
    alloc: Global,
    seen: &mut NameTable,
    around: &Surroundings,
    instance: &Instance,
) -> Result<Option<HierFault>, OutOfMemory>
    requires { around.now.declared ≤ length seen.old }
    ensures { IfOk result (λ fault. Checks (take around.now.declared seen.old) seen.old (faults.item_checks
        (texts around.now.at.now) around.now.nets.now (Item.Instance instance.now)) fault seen.new) }
{
    match enter(alloc, seen, around.at, instance.name.as_bytes())? {
        Some(fault) => return Ok(Some(fault)),
        None => {}
    }
    refer_links(alloc, seen, around, instance.links.as_slice())
}

// An item that stays.
fn check_item(
    alloc: Global,
    seen: &mut NameTable,
    around: &Surroundings,
    item: &Item,
) -> Result<Option<HierFault>, OutOfMemory>
    requires { around.now.declared ≤ length seen.old }
    ensures { IfOk result (λ fault. Checks (take around.now.declared seen.old) seen.old (faults.item_checks
        (texts around.now.at.now) around.now.nets.now item.now) fault seen.new) }
{
    match item {
        Item::Gate(gate) => check_gate(alloc, seen, around, gate),
        Item::Instance(instance) => check_instance(alloc, seen, around, instance),
        Item::Assign { output, input } => {
            match refer(alloc, seen, around, output)? {
                Some(fault) => return Ok(Some(fault)),
                None => {}
            }
            refer_operand(alloc, seen, around, input)
        }
    }
}

// The ports and wires of what a step opens; `path` goes down to where the walk stands.
fn enter_opened(
    alloc: Global,
    seen: &mut NameTable,
    path: &[&[u8]],
    step: Step,
) -> Result<Option<HierFault>, OutOfMemory>
    requires { texts path.now ≡ path_after (take step.depth (texts path.now)) (turn_of step.turn) }
    ensures { IfOk result (λ fault. (declared : List (List ℕ)) → Checks declared seen.old (flat_map checks_at
        (turn_places (take step.entry.depth (texts path.now)) (turn_of step.entry.turn))) fault seen.new) }
{
    match step.turn {
        Turn::Keeps(_) | Turn::Closes(_, _) => Ok(None),
        Turn::Opens(_, child) => enter_nets(alloc, seen, path, child),
    }
}

// The ports and wires of the whole hierarchy.
fn check_nets(
    alloc: Global,
    seen: &mut NameTable,
    tables: &NetTables,
    top: &Module,
) -> Result<Option<HierFault>, OutOfMemory>
    requires listed { IsListed tables.now top.now }
    requires levels { IsTrue (has_levels level_limit tables.now top.now) }
    ensures { IfOk result (λ fault. (declared : List (List ℕ)) → Checks declared seen.old (map (λ name. enters name)
        (faults.declared_flat tables.now top.now)) fault seen.new) }
{
    match enter_nets(alloc, seen, &[], top)? {
        Some(fault) => return Ok(Some(fault)),
        None => {}
    }
    let mut walk = Walk::new(alloc, tables.modules(), top)?;
    while let Some(step) = walk.next()? {
        match enter_opened(alloc, seen, walk.path.as_slice(), step)? {
            Some(fault) => return Ok(Some(fault)),
            None => {}
        }
    }
    Ok(None)
}

// The names that a step enters and refers to; `path` goes down to where the walk stands.
fn check_step(
    alloc: Global,
    seen: &mut NameTable,
    tables: &NetTables,
    declared: u64,
    path: &[&[u8]],
    step: Step,
) -> Result<Option<HierFault>, OutOfMemory>
    requires few { declared ≤ length seen.old }
    requires within { IsListed tables.now step.within.now }
    requires path { texts path.now ≡ path_after (take step.depth (texts path.now)) (turn_of step.turn) }
    ensures { IfOk result (λ fault. Checks (take declared seen.old) seen.old (faults.turn_checks
        (take step.entry.depth (texts path.now)) step.entry.within.now (turn_of step.entry.turn)) fault seen.new) }
{
    match step.turn {
        Turn::Keeps(item) => {
            let Some(nets) = tables.find(step.within) else {
                unreachable!()
            };
            let around = Surroundings {
                at: path,
                nets,
                declared,
            };
            check_item(alloc, seen, &around, item)
        }
        Turn::Opens(instance, _) => {
            enter(alloc, seen, &path[..step.depth], instance.name.as_bytes())
        }
        Turn::Closes(_, _) => Ok(None),
    }
}

/// The first flat name at fault: ports, wires, items.
pub fn find_bad_name(
    alloc: Global,
    tables: &NetTables,
    top: &Module,
) -> Result<Option<HierFault>, OutOfMemory>
    requires listed { IsListed tables.now top.now }
    requires levels { IsTrue (has_levels level_limit tables.now top.now) }
    ensures { IfOk result (λ fault. fault ≡ faults.bad_name_in tables.now top.now) }
{
    let mut seen = NameTable::new(alloc);
    match check_nets(alloc, &mut seen, tables, top)? {
        Some(fault) => return Ok(Some(fault)),
        None => {}
    }
    let declared = seen.len();
    let mut walk = Walk::new(alloc, tables.modules(), top)?;
    while let Some(step) = walk.next()? {
        match check_step(
            alloc,
            &mut seen,
            tables,
            declared,
            walk.path.as_slice(),
            step,
        )? {
            Some(fault) => return Ok(Some(fault)),
            None => {}
        }
    }
    Ok(None)
}
