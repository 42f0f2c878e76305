// What stands at the bits that pin lines name.
ghost use Rattle.std.specs.Prelude.{◌≡◌, ◌↔◌, ◌++◌, ◌∷◌, [], IfErr, IfOk, IsSome, OnOk, Some};
ghost use Rattle.netlist_model.specs.declared.PinBit.{PinBit};
ghost use Rattle.netlist_model.specs.Lists.{bit_net};
ghost use Rattle.plan_fitting.specs.Pins.{NamesBit};
ghost use Rattle.pin_plan.specs.Tables.{AreDrivers};
ghost use Rattle.pin_plan.specs.Seen.{ArePinsOf, IsLineFault, IsPinOf, IsPinOfLine, IsPortFault};

use crate::drivers::drivers_of;
use control_cells::Driver;
use netlist_link::Linked;
use netlist_model::{Dir, NetId, PinBit};
use plan_fitting::FitFault;
use plan_texts::PinLine;
use std::alloc::Global;
use std::marker::Model;
use texts::{OutOfMemory, Text};

/// A bit of a port: its net, its port's direction, whether it clocks, and clocks, clears or presets, flip-flops, and
/// the three-state gate that drives it.
#[derive(Drop)]
pub struct PinAt {
    pub pin: PinBit,
    pub net: NetId,
    pub side: Dir,
    pub clock: bool,
    pub control: bool,
    pub driver: Option<Driver>,
}

impl Model for PinAt {
    ghost use Rattle.std.specs.Option.{option_map};
    ghost use Rattle.plan_fitting.specs.Pins.{PinSeen};
    ghost use Rattle.pin_plan.specs.Seen.{cell_of};

    ghost Value = { PinSeen };

    ghost view = { λ p. record {
      pin = p.pin;
      net = p.net;
      side = p.side;
      clock = p.clock;
      control = p.control;
      driver = option_map cell_of p.driver;
    } };
}

// What stands at a bit.
#[tactic(auto, using(crate::proofs::Kept::pin_kept))]
fn pin_at(linked: &Linked, drivers: &[Option<Driver>], pin: PinBit) -> PinAt
    requires there { IsSome (bit_net linked.now.arena.lists pin.port.0 pin.bit) }
    requires drivers { AreDrivers linked.now.arena.lists drivers.now }
    ensures { IsPinOf linked.now pin result }
{
    let netlist = linked.netlist();
    let net = netlist.pin_net(pin);
    PinAt {
        pin,
        net,
        side: netlist.port_dir(pin.port),
        clock: linked.is_clock(net),
        control: linked.is_control(net),
        driver: drivers[net.0 as usize],
    }
}

// The bit that a word names, unless it is hidden.
fn own_pin(linked: &Linked, word: &[u8]) -> Option<PinBit>
    ensures { (pin : PinBit) → (result ≡ Some pin) ↔ NamesBit linked.now word.now pin }
{
    let pin = linked.find_pin(word)?;
    if pin.port.0 < linked.straight().first {
        Some(pin)
    } else {
        None
    }
}

// What stands at the bit that a pin line names.
fn pin_of_line(
    alloc: Global,
    linked: &Linked,
    drivers: &[Option<Driver>],
    line: &PinLine,
) -> Result<PinAt, FitFault>
    requires { AreDrivers linked.now.arena.lists drivers.now }
    ensures pin { IfOk result (IsPinOfLine linked.now line.now) }
    ensures fault { IfErr result (IsLineFault linked.now line.now) }
{
    linked.netlist().is_laid_out();
    match own_pin(linked, line.port.as_bytes()) {
        Some(pin) => Ok(pin_at(linked, drivers, pin)),
        None => Err(FitFault::PlanPort {
            word: Text::from_bytes(alloc, line.port.as_bytes())?,
        }),
    }
}

fn add_pin(pins: &mut Vec<PinAt>, one: PinAt) -> Result<(), OutOfMemory>
    ensures { OnOk result (pins.new.items ≡ pins.old.items ++ one ∷ []) }
{
    pins.push(one)?;
    Ok(())
}

/// What stands at the bit that each pin line names, in their order.
pub fn pins_of(alloc: Global, linked: &Linked, lines: &[PinLine]) -> Result<Vec<PinAt>, FitFault>
    ensures pins { IfOk result (λ pins. ArePinsOf linked.now lines.now pins.items) }
    ensures fault { IfErr result (IsPortFault linked.now lines.now) }
{
    let drivers = drivers_of(alloc, linked.netlist())?;
    let mut pins = Vec::new(alloc);
    for line in lines {
        match pin_of_line(alloc, linked, drivers.as_slice(), line) {
            Ok(one) => add_pin(&mut pins, one)?,
            Err(fault) => return Err(fault),
        }
    }
    Ok(pins)
}
