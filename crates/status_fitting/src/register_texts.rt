// Data registers of a design's own, as texts: the lines that spell them, and the first that can't stand there.
// Contracts cite specs/Grammar.antt (what bytes spell) and specs/RegisterTextsFaults.antt (the first fault).
// IEEE Std 1149.1-2001: test data registers, those that are design-specific. The form of the lines is own.
//
// - `read_status` answers registers only where the bytes spell them: the line `status 1`, and 1 to 16 lines `register`
//   with a name, an instruction, its opcode, and 1 to 256 words for the wires that are captured.
// - `StatusLine` tells the first line that can't stand there: some such text begins with the kept lines before it, and
//   none with that line too; where the text ends too early, it is the line after the last.
// - What the words name is looked at where the registers are fitted to a netlist: any bytes may be an
//   instruction or a wire.
// - A law: bytes spell registers once, or have one fault, and not both.
// By the contract of `read_status` and its law function.

mod fault;
mod laws;
mod lines;
mod plan;
mod reader;

pub use fault::StatusFault;
pub use laws::texts_of_registers_are_spelled_or_at_fault;
pub use plan::{StatusPlan, StatusRow};
pub use reader::read_status;
