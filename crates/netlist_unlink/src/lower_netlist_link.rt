// What crates above name of netlist_link.
pub use netlist_link::{link_view_is_formed, link_view_is_named};
