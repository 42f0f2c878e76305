// What crates above name of link_rules.
pub use link_rules::clocks::{controls_are_links, find_derived};
pub use link_rules::drivers::{find_driver_fault, nets_have_their_drivers};
