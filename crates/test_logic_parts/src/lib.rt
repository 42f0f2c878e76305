// The parts of the test logic, one behind the other: the nets of the test access port and those between the core and
// its cells, the controller and the registers, the boundary register, the ports.
// Contracts cite stitched_netlist's specs/Stitched.antt, and specs/Whole.antt for what a netlist needs.
// IEEE Std 1149.1-2001: test logic architecture, test access port, boundary-scan register.
//
// - The nets and ports of the test access port, the nets between the core and its cells, the controller with the
//   registers beside the boundary register, the boundary register from TDI to TDO, and TDO: each is exactly the
//   list of `stitched_netlist`, on the nets that follow, and the room shrinks by as much. None takes memory.
// By the contract of `add_port_nets`, `add_sides`, `add_logic`, `add_rows`, `add_test_logic`, `add_ports`.
#![tactic(auto)]

mod logic;
mod port;
mod rows;
mod whole;

pub use logic::add_logic;
pub use port::{add_port_nets, add_ports, add_sides};
pub use rows::add_rows;
pub use whole::add_test_logic;
