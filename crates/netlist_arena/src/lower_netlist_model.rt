// What crates above name of netlist_model.
pub use linked_cells::lower_netlist_model::{
    Feed, Name, NetId, contained_cell_by_place, driven_net_follows_no_pin,
};
