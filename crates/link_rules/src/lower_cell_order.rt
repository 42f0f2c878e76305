// What crates above name of cell_order.
pub use cell_order::{OrderFault, WorkArea, some_cell_order};
