// What crates above name of core_sides.
pub use core_sides::moves::stand_behind;
pub use core_sides::sides::sides_of;
