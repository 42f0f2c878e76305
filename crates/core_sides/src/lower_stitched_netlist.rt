// What crates above name of stitched_netlist.
pub use stitched_netlist::cells::{stitched_directions, stitched_has_counts};
pub use stitched_netlist::formed::stitched_is_formed;
pub use stitched_netlist::model::{Logic, Site, TapNames, TapPort};
pub use stitched_netlist::places::{stitched_holds_the_core, stitched_keeps};
pub use stitched_netlist::runs::{
    fitting_plans_are_alone, fitting_plans_find_home, fitting_plans_have_controls,
    fitting_plans_realise,
};
