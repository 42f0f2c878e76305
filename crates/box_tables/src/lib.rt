// Tables by which boxes, the ports that are cut at instances, links and declared names are found, each name looked up once.
// Contracts cite box_model's specs/Ports.antt and the specs of this crate.
// Own; IEEE Std 1364-2001 for modules and port connections.
//
// - `BoxTable` is a library by its names: of an instance it finds the ports that are cut, as a `PortTable`.
// - `LinkTable` is an instance's links by their ports, and `Declarations` a module's ports and wires by their names.
// - `NamePlaces` is a list of names, each of which is found where it first stands.
// - Hidden ports: `hidden_name`, `hidden_port`, `bit_at`, `index_at`; and copies of links and operands.
#![tactic(auto)]

mod copies;
mod declarations;
mod hidden;
mod link_table;
mod name_places;
mod port_table;
mod table;

pub use copies::{copy_of_link, copy_of_operand};
pub use declarations::Declarations;
pub use hidden::{bit_at, hidden_name, hidden_port, index_at};
pub use link_table::LinkTable;
pub use name_places::NamePlaces;
pub use port_table::{PortTable, is_narrow};
pub use table::BoxTable;
