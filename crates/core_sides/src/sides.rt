// Where boundary cells stand, and the nets between the core and them.
// Contracts cite stitched_netlist's specs/Sites.antt and specs/Sides.antt.
// IEEE Std 1149.1-2001: boundary-scan register; the numbers of nets are own.
//
// - `row_net`, `site_of`, `side_count`, `sides_of`, `core_side`, `core_feed` and `level_net` answer what the
//   definitions of `stitched_netlist` say of a row.
// By the contract of these calls.

mod sides;

pub use sides::{
    core_feed, core_side, is_moved, level_net, row_net, side_count, sides_of, site_of,
};
