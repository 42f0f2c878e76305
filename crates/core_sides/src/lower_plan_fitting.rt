// What crates above name of plan_fitting.
pub use stitched_netlist::lower_plan_fitting::{
    fitted_is_fitting, plans_suit_netlists, prefixes_are_free, tap_names_are_new,
};
