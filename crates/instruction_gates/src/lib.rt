// The instruction register as gates: the opcode that is latched, whether it is an instruction's, and what is selected.
// Contracts cite specs/: Latches, Matches and Selections have the cells, and what they do in every netlist
// that contains them.
// IEEE Std 1149.1-2001: instruction register.
//
// - `add_stages`, `add_latches`, `add_match`, `add_selections` and `add_copies` append exactly their cells: 1 + 6n,
//   3n, 2n an opcode, 10, and n, for n bits.
// - At each moment of a run the shift stage and the latched opcode are the test logic's, for any length
//   (`stages_follow`); where the latched bits are known, the match of an opcode is whether it is latched
//   (`matches_tell`); from these come the selected register, the modes and the nets of the boundary register, of
//   the instruction in effect, and whether it is USERCODE (`selections_tell`).
// - The copies carry the latched opcode on nets one behind another, bit 0 first (`copies_tell`).
// - An event takes the two stages to those of the test logic after it, whatever they held (`stages_step`).
// - `register`: the instruction register with a device's codes as one call.
// By the contract of the five calls and its law functions.
#![tactic(auto)]

ghost use Rattle.std.specs.Prelude.{◌≡◌};
ghost use Rattle.instruction_gates.specs.Rows.{is_one};

mod copies;
mod latches;
mod laws;
mod matches;
pub mod register;
mod selections;
mod stages;

pub use copies::{COPY, add_copies};
pub use latches::{LOADED, Latching, add_latches};
pub use laws::{
    copies_tell, latches_follow, matches_tell, selections_tell, stages_follow, stages_step,
};
pub use matches::{EQUAL_BIT, add_match};
use netlist_model::Feed;
pub use selections::{Matched, SELECTIONS, add_selections};
pub use stages::{LOADS, Stages, add_stages};

// Whether a constant is 1.
fn is_one(constant: Feed) -> bool
    ensures { result ≡ is_one constant }
{
    match constant {
        Feed::Const(value) => value,
        Feed::Net(_) => false,
    }
}
