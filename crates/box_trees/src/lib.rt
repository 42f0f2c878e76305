// Modules with their boxes opened, and the first faults of cuts and links, by box_tables' tables of names.
// Contracts cite box_model's specs/Opened.antt, specs/Counts.antt and specs/Faults.antt.
// IEEE Std 1364-2001: continuous assignments, port connections; the cut is own.
//
// - `open`: hidden ports behind the first ones, and an assign for each linked bit in place of the links.
// - `find_opened_excess`: the first limit that the opened module passes, told from widths.
// - `find_unknown_cut`, `find_link_fault`: the first cut of no flip-flop, and the first link that can't be opened.
// - `find_name_fault`: the first hidden name that is too long or taken; `find_box_fault`: the first of all these.
#![tactic(auto)]

mod assigns;
mod bit_words;
mod box_faults;
mod clashes;
mod counts;
mod cut_faults;
mod hidden_names;
mod item_opening;
mod limits;
mod link_faults;
mod name_faults;
mod named;
mod opening;
mod used_names;

pub use box_faults::find_box_fault;
pub use counts::find_opened_excess;
pub use cut_faults::find_unknown_cut;
pub use link_faults::find_link_fault;
pub use name_faults::find_name_fault;
pub use opening::{Opened, open};
