// What crates above name of netlist_model.
pub use netlist_model::laws::{contained_cell_by_place, driven_net_follows_no_pin};
pub use netlist_model::{
    CELL_LIMIT, CellId, Dir, Feed, NET_LIMIT, Name, NetId, PORT_BIT_LIMIT, PinBit, PortId, Range,
    Reader, Source, What,
};
