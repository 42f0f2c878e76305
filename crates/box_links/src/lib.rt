// Modules with boxes as linked netlists: opened, linked, and with their hidden ports marked; or the first fault.
// Contracts cite specs/BoxLinks.antt and specs/BoxFaults.antt.
// IEEE Std 1364-2001: hierarchical structures, data types; the cut is own.
//
// - `link_boxes` answers a netlist only where no fault stands: the one that the opened module is linked to, which knows
//   its hidden ports; and how many items the module has.
// - Any answered fault other than want of memory stands, and none that comes before it: of the boxes, of counts, of
//   linking the opened module, whose loops are told by the numbers of the module's own items, or of a three-state gate
//   at a hidden output.
// - Laws: where a fault stands first, the module isn't linked; one fault stands first, but that any loop may be told;
//   hidden ports behind all others end the ports; two netlists of one module are the same. Without boxes and cuts it is
//   linking as it is, with the same netlists and faults.
#![tactic(auto)]

mod fault;
mod laws;
mod linking;
mod three_state;

pub use fault::BoxLinkFault;
pub use laws::{
    box_faults_forbid_box_links, box_links_agree, boxless_faults_are_faults_of_linking,
    boxless_links_are_links, hidden_ports_end, one_box_fault_is_first,
};
pub use linking::{BoxLinked, link_boxes};
