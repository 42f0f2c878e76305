// What crates above name of netlist_unlink.
pub use plan_fitting::lower_netlist_unlink::{dense_keeps_places, written_is_renumbered};
