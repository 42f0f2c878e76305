// What crates above name of scan_stitch.
pub use status_room::lower_scan_stitch::device_of_fit;
