// Whether each net of a module has the drivers that it may have, and the first fault where one has not.
// Contracts cite `driver_fault` of the link model; specs/DriversLaws.antt has what holds where there is none.
// IEEE Std 1364-2001: data types, gate-level modelling; what three-state nets may do is own.
//
// - `find_driver_fault` answers the first fault of drivers, or none exactly where none stands: two drivers, a
//   driven input, a missing driver, a three-state gate on a wire, a read three-state output, an inout without a
//   three-state driver, in this order and within each in the order of nets.
// - A law: where none stands, no cell drives an input, no net has two drivers, outputs, inouts and read wires have
//   a driver, and three-state gates drive only outputs that nothing reads, and inouts.
// By the contract of `find_driver_fault` and its law function.

ghost use Rattle.std.specs.Prelude.{◌≡◌, IfOk, length};
ghost use Rattle.link_model.specs.Fits.{CellsBelow};
ghost use Rattle.link_model.specs.Faults.{driver_fault};

mod laws;
mod rule;
mod uses;

use crate::drivers::rule::first_broken;
use crate::drivers::uses::uses_of_nets;
pub use laws::nets_have_their_drivers;
use link_model::{ItemCell, LinkFault, NetBit};
use std::alloc::Global;
use texts::OutOfMemory;

/// The first fault of drivers, in time linear in nets, cells and operands.
pub fn find_driver_fault(
    alloc: Global,
    nets: &[NetBit],
    cells: &[ItemCell],
) -> Result<Option<LinkFault>, OutOfMemory>
    requires fits { CellsBelow (length nets.now) cells.now }
    ensures { IfOk result (λ found. found ≡ driver_fault nets.now cells.now) }
{
    let uses = uses_of_nets(alloc, nets.len(), cells)?;
    first_broken(alloc, nets, &uses)
}
