// What crates above name of status_inputs.
pub use status_inputs::StatusInsertFault;
