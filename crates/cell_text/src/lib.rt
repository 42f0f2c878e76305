// Libraries of cells as texts: the lines that spell one, the first fault, and its canonical text.
// Contracts cite specs/Grammar.antt (what bytes spell) and specs/Faults.antt (the first fault).
// IEEE Std 1364-2001, lexical conventions: names. The form of the lines is own.
//
// - `read_library` answers a library only where the bytes spell it: the line `cells 1`, and a line for each cell, with
//   the words that its name, ports, steps or kind of flip-flop have.
// - Else it tells the first fault: the first line that has another form, or more cells than 4,096 with their exact
//   count, or the first name that can't be a cell's or is taken, or the first cell whose ports or steps can't be.
// - `print_library`: the canonical text, which spells the library.
// - A law: bytes spell one library, or have a fault, and not both. Another: a line has the form of a cell's
//   exactly where its words are a key, a name, ports, and steps behind a colon or a kind of flip-flop, in the
//   counts that are allowed.
// - What texts of other libraries are made of too: the form of a cell's line (`is_cell_line`), the rule on names
//   (`find_barred`), the cells of lines (`add_cells`), and a cell's line as it is written (`put_cell`).
// By the contract of `read_library`, `print_library` and its law functions.
#![tactic(auto)]

mod cells;
mod fault;
mod laws;
mod lines;
mod names;
mod printer;
mod reader;
mod words;

pub use cells::is_port_name;
pub use fault::LibFault;
pub use laws::{lines_have_forms, texts_of_libraries_are_spelled_or_at_fault};
pub use lines::is_cell_line;
pub use names::find_barred;
pub use printer::{print_library, put_cell, put_head, put_word};
pub use reader::{add_cells, read_library};
pub use words::name_in;
