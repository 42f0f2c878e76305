// Flat modules that link: which valuations of a netlist solve the hierarchy that it was made of.
// The law is specs/LinksLaws.antt, over hier_laws' Solves.antt and netlist_link's Links.antt.
// IEEE Std 1364-2001: hierarchical structures, ports and port connections; values are those of one flat netlist.
//
// - Where modules can be made flat and the flat module links with the library, the settled valuations of its nets are
//   those that solve the hierarchy, read at (occurrence, net, bit); and each valuation can be read so.
// By the contract of its law function.

mod laws;

pub use laws::settled_where_linked;
