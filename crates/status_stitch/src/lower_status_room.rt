// What crates above name of status_room.
pub use status_room::prepare_status;
pub use status_room::ready::fitted_registers_can_be_built;
