// What crates above name of status_room.
pub use status_stitch::lower_status_room::prepare_status;
