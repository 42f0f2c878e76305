// Starts of the input bits of hidden ports.
ghost use Rattle.std.specs.Prelude.{◌≡◌, ◌<◌, ◌∷◌, [], length, slice_get, IfOk, OnOk, Some, IsSome};
ghost use Rattle.netlist_model.specs.Lists.{PortView, bit_net};
ghost use Rattle.netlist_model.specs.Formed.{width_of};
ghost use Rattle.netlist_link.specs.WellNamed.{index_from};
ghost use Rattle.default_starts.specs.Found.{AddsBit, AddsPort, IsWordOf};
ghost use Rattle.default_starts.specs.Starts.{AreDefaultStarts, BeginsAt, is_hidden_input, is_input};

use crate::started::started_nets;
use itoa::Buffer;
use netlist_link::Linked;
use netlist_model::{Dir, NetId, PinBit, PortId, Range, width_of};
use scan_vectors::Line;
use signal_values::PinSig;
use std::alloc::Global;
use texts::{OutOfMemory, Row, Text};

// The index of a bit, counted from the left of a range.
fn index_at(range: Range, bit: u32) -> u32
    requires { bit < width_of (Some range) }
    ensures { Some result ≡ index_from (Some range) bit }
{
    if range.left <= range.right {
        range.left + bit
    } else {
        range.left - bit
    }
}

// The word that names a bit of a port.
fn word_of(alloc: Global, linked: &Linked, pin: PinBit) -> Result<Text, OutOfMemory>
    requires { IsSome (bit_net linked.now.arena.lists pin.port.0 pin.bit) }
    ensures { IfOk result (IsWordOf linked.now pin) }
{
    let netlist = linked.netlist();
    netlist.is_laid_out();
    let mut word = Text::from_bytes(alloc, linked.name_text(netlist.port_name(pin.port)))?;
    if let Some(range) = netlist.port_range(pin.port) {
        let mut digits = Buffer::new();
        word.push(b'[')?;
        word.append(digits.format(index_at(range, pin.bit)).as_bytes())?;
        word.push(b']')?;
    }
    Ok(word)
}

// The value with which a bit begins: 0 where it clocks, clears or presets.
fn first_value(linked: &Linked, net: NetId) -> PinSig
    ensures { BeginsAt linked.now.arena.lists net.0 result }
{
    if linked.is_control(net) {
        PinSig::Zero
    } else {
        PinSig::Unknown
    }
}

// Adds the start of a bit, if it has none.
fn add_start(
    alloc: Global,
    linked: &Linked,
    flags: &[bool],
    pin: PinBit,
    starts: &mut Row<Line>,
) -> Result<(), OutOfMemory>
    requires there { IsSome (bit_net linked.now.arena.lists pin.port.0 pin.bit) }
    requires count { length flags.now ≡ length linked.now.arena.lists.nets }
    ensures { OnOk result (AddsBit linked.now flags.now pin starts.old starts.new) }
{
    let net = linked.netlist().pin_net(pin);
    if flags[net.0 as usize] {
        return Ok(());
    }
    starts.push(Line::Start {
        pin: word_of(alloc, linked, pin)?,
        value: first_value(linked, net),
    })
}

// Adds the starts of those bits of a port that have none.
fn add_starts(
    alloc: Global,
    linked: &Linked,
    flags: &[bool],
    port: PortId,
    starts: &mut Row<Line>,
) -> Result<(), OutOfMemory>
    requires there { port.0 < length linked.now.arena.lists.ports }
    requires count { length flags.now ≡ length linked.now.arena.lists.nets }
    ensures { OnOk result (AddsPort linked.now flags.now port.0 starts.old starts.new) }
{
    let netlist = linked.netlist();
    netlist.is_laid_out();
    for bit in 0..width_of(netlist.port_range(port)) {
        let pin = PinBit {
            port,
            bit: bit as u32,
        };
        add_start(alloc, linked, flags, pin, starts)?;
    }
    Ok(())
}

fn is_input(dir: Dir) -> bool
    ensures { result ≡ is_input dir }
{
    match dir {
        Dir::Input => true,
        Dir::Output | Dir::Inout => false,
    }
}

// Whether a port is hidden, and an input.
fn is_hidden_input(linked: &Linked, port: PortId) -> bool
    requires { port.0 < length linked.now.arena.lists.ports }
    ensures { (view : PortView) → slice_get linked.now.arena.lists.ports port.0 ≡ Some view
        → result ≡ is_hidden_input linked.now port.0 view }
{
    linked.straight().has(port) && is_input(linked.netlist().port_dir(port))
}

/// The starts of the input bits of hidden ports that no line starts, in the order of the ports.
pub fn default_starts(
    alloc: Global,
    linked: &Linked,
    lines: &[Line],
) -> Result<Row<Line>, OutOfMemory>
    ensures { IfOk result (AreDefaultStarts linked.now lines.now) }
{
    let mut starts = Row::new(alloc);
    if linked.straight().count == 0 {
        return Ok(starts);
    }
    let flags = started_nets(alloc, linked, lines)?;
    for number in 0..linked.netlist().port_count() {
        let port = PortId(number);
        if is_hidden_input(linked, port) {
            add_starts(alloc, linked, flags.as_slice(), port, &mut starts)?;
        }
    }
    Ok(starts)
}
