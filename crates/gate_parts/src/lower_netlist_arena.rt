// What crates above name of netlist_arena.
pub use netlist_arena::Netlist;
