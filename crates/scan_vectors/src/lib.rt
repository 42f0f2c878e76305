// The texts of events: reads their lines, and prints them.
// Contracts cite specs/Grammar.antt (what bytes spell), specs/Faults.antt (the first fault) and specs/Canonical.antt.
// Own: no chapter of a standard speaks of it.
//
// - `read_events` answers event lines only where the bytes spell just those lines: the header `events 1`, then
//   lines of `start`, `set` and `expect`, at most 1,000,000, each with its number in the text (skipped lines are
//   counted) and with the number of the line after the last.
// - It answers `EventLine` or `TooMany` only where that is the first fault of the text: the first line of another
//   form, or the first well-formed line past the limit, or the line after the last where no header stands.
// - Bytes spell one list of event lines at most, and have a first fault exactly where they spell none (a law); so
//   no legal text is refused but for want of memory.
// - `print_events` gives the canonical text: the header, and each line with single blanks and a small letter for
//   its value. That text spells the same lines, numbered from 2.
// - The lines that some text spells are exactly those whose pins are words and that aren't too many. The canonical
//   text of such lines spells them, numbered from 2 (`canonical_texts_spell_their_lines`): so lines that were made
//   and not read are lines that some text spells.
// - `scripts`: finds the pins of event lines, and refuses lines that break a rule.
// By the contract of `read_events`, `print_events` and its law functions.
#![tactic(auto)]

mod event_text;
mod fault;
mod form;
mod laws;
mod lines;
mod printed_events;
mod reader;
pub mod scripts;

pub use event_text::read_events;
pub use fault::EventFault;
pub use laws::{canonical_texts_spell_their_lines, texts_of_events_are_spelled_or_at_fault};
pub use lines::{Act, Line, Lines};
pub use printed_events::print_events;
