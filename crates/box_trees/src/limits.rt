// The limits of a module that has so many cells and nets more.
ghost use Rattle.std.specs.Prelude.{◌≡◌, map};
ghost use Rattle.link_model.specs.Lists.{first_in};
ghost use Rattle.link_model.specs.Nets.{port_nets, wire_nets, bits_in};
ghost use Rattle.link_model.specs.Faults.{counted, too_many, gate_operands};
ghost use Rattle.box_trees.specs.Limits.{excess_with};

use link_model::{LinkFault, width_of};
use netlist_model::{CELL_LIMIT, NET_LIMIT, What};
use verilog_tree::{Item, Module, Port, Wire};

/// How many bits the ports may have that aren't hidden.
const OWN_PORT_BIT_LIMIT: u64 = 4_096;

const OPERAND_LIMIT: u64 = 256;

fn count_port_bits(ports: &[Port]) -> u64
    ensures { result ≡ counted (bits_in (map port_nets ports.now)) }
{
    let mut count: u64 = 0;
    for port in ports {
        count = count.saturating_add(width_of(port.range));
    }
    count
}

fn count_wire_bits(wires: &[Wire]) -> u64
    ensures { result ≡ counted (bits_in (map wire_nets wires.now)) }
{
    let mut count: u64 = 0;
    for wire in wires {
        count = count.saturating_add(width_of(wire.range));
    }
    count
}

fn pass_limit(what: What, limit: u64, count: u64) -> Option<LinkFault>
    ensures { result ≡ too_many what limit count }
{
    if count > limit {
        Some(LinkFault::TooMany { what, count, limit })
    } else {
        None
    }
}

fn operand_count(item: &Item) -> u64
    ensures { result ≡ gate_operands item.now }
{
    match item {
        Item::Gate(gate) => gate.inputs.len() as u64,
        Item::Instance(_) => 0,
        Item::Assign { .. } => 1,
    }
}

fn find_wide_gate(items: &[Item]) -> Option<LinkFault>
    ensures { result ≡ first_in (λ i. too_many What.Operands 256 (gate_operands i)) items.now }
{
    for item in items {
        match pass_limit(What::Operands, OPERAND_LIMIT, operand_count(item)) {
            Some(fault) => return Some(fault),
            None => {}
        }
    }
    None
}

/// The first limit that a module passes with so many cells and nets more. Counts saturate at 2^64 - 1.
pub(crate) fn find_excess(tree: &Module, added: u64) -> Option<LinkFault>
    ensures { result ≡ excess_with added tree.now }
{
    let cells = added.saturating_add(tree.items.len() as u64);
    match pass_limit(What::Cells, CELL_LIMIT, cells) {
        Some(fault) => return Some(fault),
        None => {}
    }
    let port_bits = count_port_bits(tree.ports.as_slice());
    let net_bits = port_bits.saturating_add(count_wire_bits(tree.wires.as_slice()));
    match pass_limit(What::Nets, NET_LIMIT, added.saturating_add(net_bits)) {
        Some(fault) => return Some(fault),
        None => {}
    }
    match pass_limit(What::Ports, OWN_PORT_BIT_LIMIT, port_bits) {
        Some(fault) => return Some(fault),
        None => {}
    }
    find_wide_gate(tree.items.as_slice())
}
