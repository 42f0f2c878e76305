// What crates above name of plan_fitting.
pub use plan_fitting::FitRow;
pub use plan_fitting::devices::{
    fitted_is_fitting, plans_suit_netlists, prefixes_are_free, tap_names_are_new,
};
