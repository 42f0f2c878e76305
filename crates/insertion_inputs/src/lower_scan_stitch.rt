// What crates above name of scan_stitch.
pub use scan_stitch::stitch;
