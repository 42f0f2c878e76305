// What crates above name of scan_stitch.
pub use scan_stitch::{device_of_fit, tap_names};
