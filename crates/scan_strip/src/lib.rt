// Back from a netlist with test logic to the netlist and a plan that it was made from.
// The contracts of `strip_tree` and `strip` cite specs/Stripped.antt, which stands on strip_model's
// specs/Recovered.antt and strip_model's specs/Gives.antt.
// IEEE Std 1149.1-2001: boundary-scan register, the annex on BSDL; that there is one netlist is own.
//
// - `strip_tree` works out what is recovered, inserts it again, and compares. It answers exactly where the module and
//   the plan that are recovered give the module with test logic and the device, and what it answers are these
//   two; else it says `NotInserted`. Want of memory may come in place of either. The module is the one that its netlist
//   is written as with the plan's prefix.
// - So it says `NotInserted` only where no netlist with the library, and no plan, give the two.
// - `strip` takes the library from the netlist of the module, and links what it answers.
// By the contract of `strip_tree` and `strip`.
#![tactic(auto)]

mod again;
mod answer;
mod fault;

pub use answer::{Stripped, StrippedNetlist, strip, strip_tree};
pub use fault::StripFault;
