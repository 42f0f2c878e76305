// What crates above name of status_build.
pub use status_build::formed::registers_are_named;
