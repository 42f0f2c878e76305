// What crates above name of written_netlists.
pub use written_netlists::names::same_is_named;
