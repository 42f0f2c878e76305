// Whether two modules, or two devices, are equal.
// Contracts cite no definition: a test says whether the two values are one.
// Own: no chapter of a standard speaks of it.
//
// - `Same` tests names, numbers, lists and what may be there; the parts of a module and of a device; and both whole.
// By the contract of `Same`.

mod devices;
mod kinds;
mod trees;
mod values;

pub use values::Same;
