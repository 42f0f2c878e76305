// The netlist of a number.

ghost use Rattle.std.specs.Prelude.{◌≡◌, ◌++◌, ◌∷◌, [], ◌+◌, ◌*◌, ◌<◌, ◌≤◌, ◌^◌, ℕ, map, Some, IfOk, OnOk};
ghost use Rattle.demo_chips.specs.Draws.{state};
ghost use Rattle.demo_chips.specs.Netlists as model;

use crate::draws::Draws;
use crate::names::{bit, numbered, scalar};
use std::alloc::Global;
use texts::{OutOfMemory, Row, Text};
use verilog_tree::{
    Bit, Dir, Gate, GateKind, Instance, Item, Link, Module, Operand, Port, Range, Wire,
};

// The bit of the pool at this place.
fn pool_bit(alloc: Global, place: u32) -> Result<Bit, OutOfMemory>
    ensures { IfOk result (λ bit. bit ≡ model.pool_bit place) }
{
    if place < 16 {
        bit(alloc, b"d", place)
    } else if place < 48 {
        bit(alloc, b"f", place - 16)
    } else {
        bit(alloc, b"g", place - 48)
    }
}

// Draws a bit from so many of the pool.
fn draw_bit(
    alloc: Global,
    draws: &mut Draws,
    size: u32,
    number: u32,
    before: u32,
) -> Result<Bit, OutOfMemory>
    requires size { 0 < size }
    requires state { draws.old.state ≡ state number before }
    ensures bit { IfOk result (λ bit. bit ≡ model.drawn_bit number before size) }
    ensures state { draws.new.state ≡ state number (before + 1) }
{
    let place = (draws.draw() % size as u64) as u32;
    pool_bit(alloc, place)
}

fn gate_kind(place: u64) -> GateKind
    ensures { result ≡ model.gate_kind place }
{
    match place {
        0 => GateKind::And,
        1 => GateKind::Or,
        2 => GateKind::Nand,
        3 => GateKind::Nor,
        4 => GateKind::Xor,
        _ => GateKind::Xnor,
    }
}

// The gate with this number, behind those before it.
fn gate_item(alloc: Global, draws: &mut Draws, number: u32, place: u32) -> Result<Item, OutOfMemory>
    requires number { number < 10000 }
    requires place { place < model.gate_count number }
    requires state { draws.old.state ≡ state number (3 * place) }
    ensures item { IfOk result (λ item. item ≡ model.gate_item number place) }
    ensures state { draws.new.state ≡ state number (3 * place + 3) }
{
    let kind = gate_kind(draws.draw() % 6);
    let first = draw_bit(alloc, draws, 48 + place, number, 3 * place + 1);
    let second = draw_bit(alloc, draws, 48 + place, number, 3 * place + 2);
    let mut inputs = Row::new(alloc);
    inputs.push(Operand::Bit(first?))?;
    inputs.push(Operand::Bit(second?))?;
    Ok(Item::Gate(Gate {
        kind,
        name: None,
        output: bit(alloc, b"g", place)?,
        inputs,
    }))
}

fn link_to(alloc: Global, port: &[u8], bit: Bit) -> Result<Link, OutOfMemory>
    ensures { IfOk result (λ link. link ≡ model.link_to port.now bit) }
{
    Ok(Link {
        port: Text::from_bytes(alloc, port)?,
        operand: Some(Operand::Bit(bit)),
    })
}

// The connections of the flip-flop with this number, with these data.
fn flop_links(alloc: Global, number: u32, datum: Bit) -> Result<Row<Link>, OutOfMemory>
    ensures { IfOk result (λ links. links ≡ model.flop_links number datum) }
{
    let datum = link_to(alloc, b"D", datum)?;
    let clock = link_to(alloc, b"CK", scalar(alloc, b"clk")?)?;
    let clear = link_to(alloc, b"RN", scalar(alloc, b"rn")?)?;
    let output = link_to(alloc, b"Q", bit(alloc, b"f", number)?)?;
    let mut links = Row::new(alloc);
    links.push(datum)?;
    links.push(clock)?;
    links.push(clear)?;
    links.push(output)?;
    Ok(links)
}

// The flip-flop with this number.
fn flop_item(alloc: Global, draws: &mut Draws, number: u32, place: u32) -> Result<Item, OutOfMemory>
    requires number { number < 10000 }
    requires place { place < 32 }
    requires state { draws.old.state ≡ state number (3 * model.gate_count number + place) }
    ensures item { IfOk result (λ item. item ≡ model.flop_item number place) }
    ensures state { draws.new.state ≡ state number (3 * model.gate_count number + place + 1) }
{
    let count = 100 + 10 * number;
    let data = draw_bit(alloc, draws, 48 + count, number, 3 * count + place);
    Ok(Item::Instance(Instance {
        cell: Text::from_bytes(alloc, b"DFFR")?,
        name: numbered(alloc, b"f_", place)?,
        links: flop_links(alloc, place, data?)?,
    }))
}

// The gate of the output with this number.
fn output_item(
    alloc: Global,
    draws: &mut Draws,
    number: u32,
    place: u32,
) -> Result<Item, OutOfMemory>
    requires number { number < 10000 }
    requires place { place < 16 }
    requires state { draws.old.state ≡ state number (3 * model.gate_count number + 32 + place) }
    ensures item { IfOk result (λ item. item ≡ model.output_item number place) }
    ensures state { draws.new.state ≡ state number (3 * model.gate_count number + 32 + place + 1) }
{
    let count = 100 + 10 * number;
    let data = draw_bit(alloc, draws, 48 + count, number, 3 * count + 32 + place);
    let mut inputs = Row::new(alloc);
    inputs.push(Operand::Bit(data?))?;
    Ok(Item::Gate(Gate {
        kind: GateKind::Buf,
        name: None,
        output: bit(alloc, b"q", place)?,
        inputs,
    }))
}

#[tactic(auto, using(crate::proofs::Pushed::pushed_more))]
fn push_gates(
    alloc: Global,
    items: &mut Row<Item>,
    draws: &mut Draws,
    number: u32,
) -> Result<(), OutOfMemory>
    requires number { number < 10000 }
    requires state { draws.old.state ≡ state number 0 }
    ensures items { OnOk result (items.new ≡ items.old
        ++ map (model.gate_item number) (model.from_zero (model.gate_count number))) }
    ensures state { OnOk result (draws.new.state ≡ state number (3 * model.gate_count number)) }
{
    for place in 0..100 + 10 * number {
        let item = gate_item(alloc, draws, number, place)?;
        items.push(item)?;
    }
    Ok(())
}

#[tactic(auto, using(crate::proofs::Pushed::pushed_more))]
fn push_flops(
    alloc: Global,
    items: &mut Row<Item>,
    draws: &mut Draws,
    number: u32,
) -> Result<(), OutOfMemory>
    requires number { number < 10000 }
    requires state { draws.old.state ≡ state number (3 * model.gate_count number) }
    ensures items { OnOk result (items.new ≡ items.old
        ++ map (model.flop_item number) (model.from_zero 32)) }
    ensures state { OnOk result (draws.new.state ≡ state number (3 * model.gate_count number + 32)) }
{
    for place in 0..32 {
        let item = flop_item(alloc, draws, number, place)?;
        items.push(item)?;
    }
    Ok(())
}

#[tactic(auto, using(crate::proofs::Pushed::pushed_more))]
fn push_outputs(
    alloc: Global,
    items: &mut Row<Item>,
    draws: &mut Draws,
    number: u32,
) -> Result<(), OutOfMemory>
    requires number { number < 10000 }
    requires state { draws.old.state ≡ state number (3 * model.gate_count number + 32) }
    ensures items { OnOk result (items.new ≡ items.old
        ++ map (model.output_item number) (model.from_zero 16)) }
{
    for place in 0..16 {
        let item = output_item(alloc, draws, number, place)?;
        items.push(item)?;
    }
    Ok(())
}

fn port(alloc: Global, name: &[u8], dir: Dir, range: Option<Range>) -> Result<Port, OutOfMemory>
    ensures { IfOk result (λ port. port ≡ record { name = name.now; dir = dir; range = range }) }
{
    Ok(Port {
        name: Text::from_bytes(alloc, name)?,
        dir,
        range,
    })
}

fn ports(alloc: Global) -> Result<Row<Port>, OutOfMemory>
    ensures { IfOk result (λ ports. ports ≡ model.demo_ports) }
{
    let bits = Some(Range { left: 15, right: 0 });
    let clock = port(alloc, b"clk", Dir::Input, None)?;
    let clear = port(alloc, b"rn", Dir::Input, None)?;
    let data = port(alloc, b"d", Dir::Input, bits)?;
    let output = port(alloc, b"q", Dir::Output, bits)?;
    let mut ports = Row::new(alloc);
    ports.push(clock)?;
    ports.push(clear)?;
    ports.push(data)?;
    ports.push(output)?;
    Ok(ports)
}

fn wire(alloc: Global, name: &[u8], left: u32) -> Result<Wire, OutOfMemory>
    ensures { IfOk result (λ wire. wire ≡ model.wires_of name.now left) }
{
    Ok(Wire {
        name: Text::from_bytes(alloc, name)?,
        range: Some(Range { left, right: 0 }),
    })
}

fn wires(alloc: Global, number: u32) -> Result<Row<Wire>, OutOfMemory>
    requires { number < 10000 }
    ensures { IfOk result (λ wires. wires ≡ model.demo_wires number) }
{
    let flops = wire(alloc, b"f", 31)?;
    let gates = wire(alloc, b"g", 99 + 10 * number)?;
    let mut wires = Row::new(alloc);
    wires.push(flops)?;
    wires.push(gates)?;
    Ok(wires)
}

fn items(alloc: Global, number: u32) -> Result<Row<Item>, OutOfMemory>
    requires { number < 10000 }
    ensures { IfOk result (λ items. items ≡ model.demo_items number) }
{
    let mut draws = Draws {
        state: number as u64,
    };
    let mut items = Row::new(alloc);
    push_gates(alloc, &mut items, &mut draws, number)?;
    push_flops(alloc, &mut items, &mut draws, number)?;
    push_outputs(alloc, &mut items, &mut draws, number)?;
    Ok(items)
}

/// The netlist of this number: `100 + 10 * number` gates, 32 flip-flops, 16 outputs behind buffers.
pub fn demo_module(alloc: Global, number: u32) -> Result<Module, OutOfMemory>
    requires { number < 10000 }
    ensures { IfOk result (λ made. made ≡ model.demo_module number) }
{
    Ok(Module {
        name: Text::from_bytes(alloc, b"demo")?,
        ports: ports(alloc)?,
        wires: wires(alloc, number)?,
        items: items(alloc, number)?,
    })
}
