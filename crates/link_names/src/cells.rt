// The cells of items, by the table of what is declared.
ghost use Rattle.std.specs.Prelude.{◌≡◌, ◌^◌, [], map, All, IfOk, option_and_then};
ghost use Rattle.cell_library.specs.Library as ports;
ghost use Rattle.std.specs.Option.{option_copied};
ghost use Rattle.link_model.specs.Nets.{net_of};
ghost use Rattle.link_model.specs.Cells as model;
ghost use Rattle.link_names.specs.CellNumbers.{HasNumbers};
ghost use Rattle.link_names.specs.Views.{entries_of};
ghost use Rattle.link_names.specs.FitItems.{FitsBit, FitsOperand, FitsLink, FitsGate, FitsItem};

use crate::cell_numbers::kind_of;
use crate::declarations::{Declaration, find};
use crate::names::gate_name;
use cell_library::{Kind, Library, is_flop, operand_port, operand_port_count, output_port};
use indexmap::IndexMap;
use link_model::ItemCell;
use netlist_model::{Feed, NetId};
use smallvec::SmallVec;
use std::alloc::Global;
use texts::OutOfMemory;
use verilog_tree::{Bit, Gate, GateKind, Instance, Item, Link, Operand};

fn kind_of_gate(kind: GateKind) -> Kind
    ensures { result ≡ model.kind_of_gate kind }
{
    match kind {
        GateKind::And => Kind::And,
        GateKind::Or => Kind::Or,
        GateKind::Nand => Kind::Nand,
        GateKind::Nor => Kind::Nor,
        GateKind::Xor => Kind::Xor,
        GateKind::Xnor => Kind::Xnor,
        GateKind::Buf => Kind::Buf,
        GateKind::Not => Kind::Not,
        GateKind::Bufif0 => Kind::Bufif0,
        GateKind::Bufif1 => Kind::Bufif1,
    }
}

fn net_number(table: &IndexMap<&[u8], Declaration>, bit: &Bit) -> NetId
    requires { FitsBit (2 ^ 32) (entries_of table.now) bit.now }
    ensures { result ≡ net_of (entries_of table.now) bit.now }
{
    match find(table, bit.net.as_bytes()) {
        None => NetId(0),
        Some(declaration) => match (declaration.range, bit.index) {
            (Some(range), Some(index)) => NetId(declaration.first + range.left.abs_diff(index)),
            _ => NetId(declaration.first),
        },
    }
}

fn feed_of(table: &IndexMap<&[u8], Declaration>, operand: &Operand) -> Feed
    requires { FitsOperand (2 ^ 32) (entries_of table.now) operand.now }
    ensures { result ≡ model.feed_of (entries_of table.now) operand.now }
{
    match operand {
        Operand::Bit(bit) => Feed::Net(net_number(table, bit)),
        Operand::Const(value) => Feed::Const(*value),
    }
}

fn feeds_of(
    alloc: Global,
    table: &IndexMap<&[u8], Declaration>,
    operands: &[Operand],
) -> Result<SmallVec<Feed, 4>, OutOfMemory>
    requires { All (FitsOperand (2 ^ 32) (entries_of table.now)) operands.now }
    ensures { IfOk result (λ feeds. feeds.items
        ≡ map (model.feed_of (entries_of table.now)) operands.now) }
{
    let mut feeds = SmallVec::new(alloc);
    for operand in operands {
        feeds.push(feed_of(table, operand))?;
    }
    Ok(feeds)
}

fn gate_cell<'a>(
    alloc: Global,
    table: &IndexMap<&[u8], Declaration>,
    gate: &'a Gate,
) -> Result<ItemCell<'a>, OutOfMemory>
    requires { FitsGate (2 ^ 32) (entries_of table.now) gate.now }
    ensures { IfOk result (λ cell. cell
        ≡ model.cell_of [] (entries_of table.now) (Item.Gate gate.now)) }
{
    let feeds = feeds_of(alloc, table, gate.inputs.as_slice())?;
    Ok(ItemCell::new(
        kind_of_gate(gate.kind),
        false,
        gate_name(gate),
        feeds,
        Some(net_number(table, &gate.output)),
    ))
}

// What the first link of a port connects.
fn linked_operand<'a>(links: &'a [Link], port: &[u8]) -> Option<&'a Operand>
    ensures { option_copied result ≡ model.linked_operand links.now port.now }
{
    for link in links {
        if link.port.as_bytes() == port {
            return link.operand.as_ref();
        }
    }
    None
}

fn port_feed(table: &IndexMap<&[u8], Declaration>, links: &[Link], port: &[u8]) -> Feed
    requires { All (FitsLink (2 ^ 32) (entries_of table.now)) links.now }
    ensures { result ≡ model.port_feed (entries_of table.now) links.now port.now }
{
    match linked_operand(links, port) {
        Some(operand) => feed_of(table, operand),
        None => Feed::Const(false),
    }
}

fn operand_net(table: &IndexMap<&[u8], Declaration>, operand: &Operand) -> Option<NetId>
    requires { FitsOperand (2 ^ 32) (entries_of table.now) operand.now }
    ensures { result ≡ model.operand_net (entries_of table.now) operand.now }
{
    match operand {
        Operand::Bit(bit) => Some(net_number(table, bit)),
        Operand::Const(_) => None,
    }
}

fn port_net(table: &IndexMap<&[u8], Declaration>, links: &[Link], port: &[u8]) -> Option<NetId>
    requires { All (FitsLink (2 ^ 32) (entries_of table.now)) links.now }
    ensures { result ≡ model.port_net (entries_of table.now) links.now port.now }
{
    match linked_operand(links, port) {
        Some(operand) => operand_net(table, operand),
        None => None,
    }
}

fn port_feeds(
    alloc: Global,
    library: &Library,
    table: &IndexMap<&[u8], Declaration>,
    links: &[Link],
    kind: Kind,
) -> Result<SmallVec<Feed, 4>, OutOfMemory>
    requires { All (FitsLink (2 ^ 32) (entries_of table.now)) links.now }
    ensures { IfOk result (λ feeds. feeds.items
        ≡ map (model.port_feed (entries_of table.now) links.now)
        (ports.operand_ports library.now kind)) }
{
    let mut feeds = SmallVec::new(alloc);
    for place in 0..operand_port_count(library, kind) {
        feeds.push(port_feed(table, links, operand_port(library, kind, place)))?;
    }
    Ok(feeds)
}

fn output_net(
    library: &Library,
    table: &IndexMap<&[u8], Declaration>,
    links: &[Link],
    kind: Kind,
) -> Option<NetId>
    requires { All (FitsLink (2 ^ 32) (entries_of table.now)) links.now }
    ensures { result
        ≡ option_and_then (model.port_net (entries_of table.now) links.now) (ports.output_port library.now kind) }
{
    match output_port(library, kind) {
        Some(port) => port_net(table, links, port),
        None => None,
    }
}

fn library_cell<'a>(
    alloc: Global,
    library: &Library,
    table: &IndexMap<&[u8], Declaration>,
    instance: &'a Instance,
    kind: Kind,
) -> Result<ItemCell<'a>, OutOfMemory>
    requires { All (FitsLink (2 ^ 32) (entries_of table.now)) instance.now.links }
    ensures { IfOk result (λ cell. cell
        ≡ model.library_cell library.now (entries_of table.now) instance.now kind) }
{
    let links = instance.links.as_slice();
    let feeds = port_feeds(alloc, library, table, links, kind)?;
    Ok(ItemCell::new(
        kind,
        is_flop(library, kind),
        Some(instance.name.as_bytes()),
        feeds,
        output_net(library, table, links, kind),
    ))
}

fn assign_cell<'a>(
    alloc: Global,
    table: &IndexMap<&[u8], Declaration>,
    output: &Bit,
    input: &Operand,
) -> Result<ItemCell<'a>, OutOfMemory>
    requires output { FitsBit (2 ^ 32) (entries_of table.now) output.now }
    requires input { FitsOperand (2 ^ 32) (entries_of table.now) input.now }
    ensures { IfOk result (λ cell. cell
        ≡ model.cell_of [] (entries_of table.now) (Item.Assign output.now input.now)) }
{
    let mut feeds = SmallVec::new(alloc);
    feeds.push(feed_of(table, input))?;
    Ok(ItemCell::new(
        Kind::Assign,
        false,
        None,
        feeds,
        Some(net_number(table, output)),
    ))
}

// An instance of no library cell, which is a fault, counts as a `buf`.
fn cell_of<'a>(
    alloc: Global,
    library: &Library,
    numbers: &IndexMap<&[u8], u32>,
    table: &IndexMap<&[u8], Declaration>,
    item: &'a Item,
) -> Result<ItemCell<'a>, OutOfMemory>
    requires numbers { HasNumbers library.now numbers.now }
    requires fits { FitsItem (2 ^ 32) (entries_of table.now) item.now }
    ensures { IfOk result (λ cell. cell
        ≡ model.cell_of library.now (entries_of table.now) item.now) }
{
    match item {
        Item::Gate(gate) => gate_cell(alloc, table, gate),
        Item::Instance(instance) => {
            let kind = kind_of(library, numbers, instance.cell.as_bytes()).unwrap_or(Kind::Buf);
            library_cell(alloc, library, table, instance, kind)
        }
        Item::Assign { output, input } => assign_cell(alloc, table, output, input),
    }
}

/// The cells in order. Item i gives cell i.
pub fn cells_of<'a>(
    alloc: Global,
    library: &Library,
    numbers: &IndexMap<&[u8], u32>,
    table: &IndexMap<&[u8], Declaration>,
    items: &'a [Item],
) -> Result<Vec<ItemCell<'a>>, OutOfMemory>
    requires numbers { HasNumbers library.now numbers.now }
    requires fits { All (FitsItem (2 ^ 32) (entries_of table.now)) items.now }
    ensures { IfOk result (λ cells. cells.items
        ≡ map (model.cell_of library.now (entries_of table.now)) items.now) }
{
    let mut cells = Vec::with_capacity(alloc, items.len())?;
    for item in items {
        cells.push(cell_of(alloc, library, numbers, table, item)?)?;
    }
    Ok(cells)
}
