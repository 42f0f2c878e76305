// What crates above name of netlist_unlink.
pub use stitched_netlist::lower_netlist_unlink::{dense_keeps_places, written_is_renumbered};
