// What a netlist with test logic and its device come from: a module and a plan, as a function of both.
// specs/Recovered.antt has the whole.
// IEEE Std 1149.1-2001: boundary-scan register, the annex on BSDL; the places of gates are own.
//
// - `gives`: when a netlist and a plan give a module with test logic and a device (`Gives`); laws.
// - `law`: the law: what a netlist and a plan give is recovered as that netlist and a plan that gives the same; so
//   two netlists that give the same are one, and where what is recovered doesn't give the two, nothing does.
// - `netlists`: laws: the gates of the boundary register tell the nets between it and the core, and what is left of
//   the module is the netlist's.
// - `plans`: laws: the device tells the plan, which fits as before and is spelled.
#![tactic(auto)]

pub mod gives;
pub mod law;
pub mod netlists;
pub mod plans;

use plan_texts::TapLine;
use texts::Text;
use verilog_tree::Operand;

/// A net between the core and a boundary cell, by its name, and what the core had in its place.
#[derive(Drop)]
pub struct Side {
    pub net: Text,
    pub core: Operand,
}

/// What stands at a row: its net between, if there is one, and how many gates its cell has.
#[derive(Drop)]
pub struct Stand {
    pub side: Option<Side>,
    pub count: usize,
}

/// The lines of the test access port.
#[derive(Drop)]
pub struct Taps {
    pub tck: TapLine,
    pub tms: TapLine,
    pub tdi: TapLine,
    pub tdo: TapLine,
    pub trst: TapLine,
}
