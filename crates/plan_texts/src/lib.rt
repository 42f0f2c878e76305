// Pin plans: the lines that spell one, its first fault, and its canonical text.
// Contracts cite specs/Grammar.antt (what bytes spell), specs/Faults.antt (the first fault) and specs/Canonical.antt.
// IEEE Std 1149.1-2001: instruction register, device identification register. The form of the lines is own.
//
// - `read_plan` answers a plan only where the bytes spell it: its lines in their order, each of its form, and no
//   rule on instructions, on the identification code and on the usercode broken. The first line tells the version,
//   1 or 2; version 2 alone has USERCODE and the line `usercode`.
// - `PlanLine` tells the first line that can't stand there: some plan begins with the kept lines before it, and
//   none with that line too (rules may be broken in either); where the plan ends too early, it is the line after
//   the last. Where no line is at fault, the first rule that is broken is told, with its word.
// - `write_plan`: the canonical text of any plan; of one that no bytes spell it is no plan's text, which reading it
//   tells. `print_plan`: that of a plan that some bytes spell, which spells it.
// - A law: bytes spell one plan, or have one fault, and not both.
// - A law: a text whose first line is `plan 1` spells exactly the plans of version 1 by itself (specs/First.antt): its
//   lines, its seven instructions and its rules, with version 1 and no usercode.
// By the contract of `read_plan`, `write_plan`, `print_plan` and its law functions.
#![tactic(auto)]

mod fault;
mod forms;
mod groups;
mod instructions;
mod laws;
mod lines;
mod meaning;
mod plan;
mod printer;
mod reader;
mod rules;
mod written;

pub use fault::PlanFault;
pub use laws::{
    canonical_plans_spell_themselves, first_version_stays, texts_of_plans_are_spelled_or_at_fault,
};
pub use plan::{PinLine, Plan, TapLine};
pub use printer::{print_plan, write_plan};
pub use reader::read_plan;
