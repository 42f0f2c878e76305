// Writes a linked netlist as the tree of a module.
// Contracts cite specs/Trees.antt, specs/Rows.antt and specs/Prefixes.antt, and specs/Renumbered.antt for what
// the tree denotes.
// IEEE Std 1364-2001: modules and ports, data types, gate-level modelling; the names of added nets and cells are own.
//
// - `is_free_prefix` says exactly whether bytes are a letter or `_` and then letters, digits and `_`, 1 to 32 in
//   all, with which no original name of a port, net or cell begins.
// - `unlink`, with such a prefix, answers one tree, given in full: ports in order, original wires in the order of
//   their first nets, added nets as scalar wires `<prefix>n<number>`, and cells by rising number, added ones as
//   `<prefix>c<number>`; the links of a library cell or a listed one stand in the order of its operands, then its
//   output where it is connected.
// - Some text spells that tree.
// - With the netlist's library the tree denotes the netlist with its nets and cells numbered anew; where that has no
//   more cells, nets and port bits than the limits, the tree can be linked, and else its fault is that it has too many.
// - A law: written right after linking, the tree denotes what the linked tree denotes, and can be linked, with the
//   same library.
// - A law: the item of each live cell keeps its kind, its name and its count of operands.
// - `images`: laws of written netlists.
// By the contract of `unlink`, `is_free_prefix` and its law functions.
#![tactic(auto)]

mod cells;
pub mod images;
mod kinds;
mod links;
pub mod lower_netlist_link;
mod names;
mod parts;
mod ports;
mod prefix;
mod rows;
mod tree;
mod wires;

pub use prefix::is_free_prefix;
pub use tree::{items_keep_their_cells, unlink, unlink_undoes_link};
