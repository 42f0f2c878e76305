// What crates above name of status_register.
pub use status_register::stitch_status;
pub use status_register::written::{
    status_can_be_written, status_is_written, written_status_finds_home,
    written_status_has_controls, written_status_is_alone, written_status_is_alone_from_home,
    written_status_realises,
};
