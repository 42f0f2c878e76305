// Devices and their parts.
ghost use Rattle.std.specs.Prelude.{◌≡◌, ◌↔◌, IsTrue};

use crate::equality::values::Same;
use bsdl_device::{CellRow, DevBit, DevPort, Device, Disable, PortRange};
use cell_library::{Bits, Opcode};

impl Same for Bits {
    fn is_same(&self, other: &Bits) -> bool {
        self.len == other.len && self.value == other.value
    }
}

impl Same for Opcode {
    fn is_same(&self, other: &Opcode) -> bool {
        self.instr.is_same(&other.instr) && self.bits.is_same(&other.bits)
    }
}

impl Same for PortRange {
    fn is_same(&self, other: &PortRange) -> bool {
        self.left == other.left && self.right == other.right
    }
}

impl Same for DevPort {
    fn is_same(&self, other: &DevPort) -> bool {
        self.name.is_same(&other.name)
            && self.mode.is_same(&other.mode)
            && self.range.is_same(&other.range)
            && self.pins.is_same(&other.pins)
    }
}

impl Same for DevBit {
    fn is_same(&self, other: &DevBit) -> bool {
        self.port == other.port && self.index.is_same(&other.index)
    }
}

impl Same for Disable {
    fn is_same(&self, other: &Disable) -> bool {
        self.control == other.control && self.value == other.value
    }
}

impl Same for CellRow {
    fn is_same(&self, other: &CellRow) -> bool {
        self.cell.is_same(&other.cell)
            && self.pin.is_same(&other.pin)
            && self.function.is_same(&other.function)
            && self.safe.is_same(&other.safe)
            && self.disable.is_same(&other.disable)
    }
}

// The names and the ports.
fn same_ports(one: &Device, other: &Device) -> bool
    ensures { IsTrue result ↔ ((one.now.entity ≡ other.now.entity)
        × (one.now.«package» ≡ other.now.«package») × (one.now.ports ≡ other.now.ports)) }
{
    one.entity.is_same(&other.entity)
        && one.package.is_same(&other.package)
        && one.ports.is_same(&other.ports)
}

// The places of the test access port.
fn same_access(one: &Device, other: &Device) -> bool
    ensures { IsTrue result ↔ ((one.now.tck ≡ other.now.tck) × (one.now.tms ≡ other.now.tms)
        × (one.now.tdi ≡ other.now.tdi) × (one.now.tdo ≡ other.now.tdo) × (one.now.trst ≡ other.now.trst)) }
{
    one.tck == other.tck
        && one.tms == other.tms
        && one.tdi == other.tdi
        && one.tdo == other.tdo
        && one.trst == other.trst
}

// The clock and the instructions.
fn same_instructions(one: &Device, other: &Device) -> bool
    ensures { IsTrue result ↔ ((one.now.clock ≡ other.now.clock) × (one.now.stop ≡ other.now.stop)
        × (one.now.length ≡ other.now.length) × (one.now.opcodes ≡ other.now.opcodes)
        × (one.now.capture ≡ other.now.capture)) }
{
    one.clock.is_same(&other.clock)
        && one.stop.is_same(&other.stop)
        && one.length == other.length
        && one.opcodes.is_same(&other.opcodes)
        && one.capture.is_same(&other.capture)
}

// The codes and the boundary register.
fn same_registers(one: &Device, other: &Device) -> bool
    ensures { IsTrue result ↔ ((one.now.idcode ≡ other.now.idcode)
        × (one.now.usercode ≡ other.now.usercode) × (one.now.cells ≡ other.now.cells)) }
{
    one.idcode.is_same(&other.idcode)
        && one.usercode.is_same(&other.usercode)
        && one.cells.is_same(&other.cells)
}

impl Same for Device {
    fn is_same(&self, other: &Device) -> bool {
        same_ports(self, other)
            && same_access(self, other)
            && same_instructions(self, other)
            && same_registers(self, other)
    }
}
