// The netlist with the test logic built in, as a function of the netlist and of what fits it: specs/Stitched.antt has
// the whole, specs/Sites.antt and specs/Sides.antt what stands between the core and its pins, and specs/Keeps.antt what
// stays of the core.
// IEEE Std 1149.1-2001: test logic architecture, boundary-scan register; the order of cells and nets is own.
//
// - `stitched`: ports, nets and cells as lists. The core's cells come first, with the nets on the core's side of
//   their boundary cells (`core_side`) and the drivers behind them; then controller, instruction, bypass and
//   identification register, the boundary register from TDI to TDO, and TDO. Each part is the list that its own
//   crate adds.
// - `Keeps`: the ports are the old ones and the test access port's, and each cell of the core keeps its place, its
//   kind and its name.
// - Examples, by computation: the core and the boundary register of four small modules (two-state outputs without
//   and with HIGHZ, drivers of both polarities on one enable, an inout).
// By the contract of its law function.

ghost use Rattle.stitched_netlist.specs.Examples.{TwoStateCore, TwoStateRegister, DrivenCore, DrivenRegister, DriverCore, DriverRegister, InoutCore, InoutRegister};

use netlist_model::{Name, NetId};
use test_logic::{InstrNets, TapNets};

/// Where a boundary cell stands.
#[derive(Clone, Copy)]
pub enum Site {
    /// Beside an input, which goes to the core as it is.
    Observed,
    /// Between an input and the core.
    Input,
    /// Between the core and an output that is always driven.
    Output,
    /// The same, with a three-state driver that is added behind it.
    AddedDriver,
    /// Before the data of an output's three-state driver.
    Driver,
    /// Before the data of an inout's driver.
    Inout,
    /// Before the control of drivers.
    Control,
}

/// The names of the test access port.
#[derive(Clone, Copy)]
pub struct TapNames {
    pub tck: Name,
    pub tms: Name,
    pub tdi: Name,
    pub tdo: Name,
    pub trst: Name,
}

/// The nets of the test access port.
#[derive(Clone, Copy)]
pub struct TapPort {
    pub tck: NetId,
    pub tms: NetId,
    pub tdi: NetId,
    pub tdo: NetId,
    pub trst: NetId,
}

/// What the controller and the registers beside the boundary register hand on: of each test data register the
/// bit nearest TDO.
#[derive(Clone, Copy)]
pub struct Logic {
    pub tap: TapNets,
    pub instruction: InstrNets,
    pub bypass: NetId,
    pub ident: Option<NetId>,
}

/// The core and the boundary register of small netlists.
pub fn examples_are_stitched()
    ensures two_state_core { TwoStateCore }
    ensures two_state_register { TwoStateRegister }
    ensures driven_core { DrivenCore }
    ensures driven_register { DrivenRegister }
    ensures driver_core { DriverCore }
    ensures driver_register { DriverRegister }
    ensures inout_core { InoutCore }
    ensures inout_register { InoutRegister }
{}
