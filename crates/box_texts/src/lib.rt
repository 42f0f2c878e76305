// Libraries with boxes as texts: cells of which their ports are known alone, and flip-flops that are cut.
// The line `boxes 1`; then a line for each gate or flip-flop as in `cells 1`, then one for each box, then one for each
// cut. A text that begins otherwise is read as a library without boxes.
// Contracts cite specs/Grammar.antt (what bytes spell) and specs/Faults.antt (the first fault).
// IEEE Std 1364-2001, lexical conventions: names. The form of the lines is own.
//
// - `read_boxes` answers a library only where the bytes spell it; else it tells the first fault: the first line that
//   has another form or may not stand there, or more lines than 4,096 with their exact count, or the first name that
//   can't be a cell's, a box's or an instance's or is taken, or the first cell or box with a wrong word behind its
//   name.
// - `print_boxes`: the canonical text, which spells the library.
// - A law: bytes spell one library, or have a fault, and not both. Another: what they spell is sound, and its canonical
//   text spells it.
// By the contract of `read_boxes`, `print_boxes` and its law functions.
#![tactic(auto)]

mod box_cells;
mod forms;
mod laws;
mod names;
mod ports;
mod printer;
mod reader;
mod words;

pub use laws::{spelled_libraries_are_sound, texts_of_boxes_are_spelled_or_at_fault};
pub use printer::print_boxes;
pub use reader::read_boxes;
