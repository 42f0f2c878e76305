// What crates above name of cell_order.
pub use link_rules::lower_cell_order::{OrderFault, WorkArea, some_cell_order};
