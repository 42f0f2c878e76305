// What crates above name of netlist_unlink.
pub use netlist_unlink::images::{dense_keeps_places, written_is_renumbered};
