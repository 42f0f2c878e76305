// The rules of a BSDL file on its ports, pins, instructions and registers, and what they are looked up by: tables of
// names and of keys.
// Contracts cite specs/Checks.antt, Ports.antt and Instructions.antt of bsdl_device; of keys that come once or twice
// specs/Keys.antt.
// IEEE Std 1149.1-2001: the annex on BSDL; instruction register; device identification register. The limits are own.
//
// - `name_fails`, `pin_map_fails`, `tap_fails`, `length_fails`, `opcode_fails`, `capture_fails`, `idcode_fails`,
//   `usercode_fails` and `register_fails` say yes exactly where their rule is broken.
// - `declared_ports` gives the ports of a file, `width` the count of a port's bits, `mapped_ports` the ports of a pin
//   map; `PortTable` finds the first port of a name, in any case of letters. `instruction_named` gives the instruction
//   of a name, and `is_mode` compares modes.
// - `comes_twice` says yes exactly where a key comes twice; by `uses_of` and `comes_once` a key comes once.
// By the contract of these calls.
#![tactic(auto)]

// Names and keys that come twice, and tables of ports.
mod keys;
mod names;
mod port_table;

// The rules.
mod access;
mod instructions;
mod pin_map;
mod ports;
mod tap;

pub use access::register_fails;
pub use instructions::{
    capture_fails, idcode_fails, instruction_named, length_fails, opcode_fails, usercode_fails,
};
pub use keys::{Uses, comes_once, comes_twice, uses_of};
pub use pin_map::{mapped_ports, pin_map_fails};
pub use port_table::PortTable;
pub use ports::{declared_ports, name_fails, width};
pub use tap::{is_mode, tap_fails};
