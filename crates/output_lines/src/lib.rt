// Lines of words, as a sink is given them, and at the end of a text.
// Contracts cite specs/Lines.antt: what a line's bytes are.
// Own: no chapter of a standard speaks of it.
//
// Proved: of each of `put_line`, `put_numbers` and `put_pieces`:
// - Where it ends well, the sink got exactly these bytes behind what it had: the words with one blank between them
//   and a line feed; a word and numbers in decimal digits likewise; or the pieces joined.
// - Where the sink fails, it got a front of them, and its count of faults rose or stands at its last value. The
//   count never falls.
// - `add_word`, `add_words` and `add_line` add a word, words and a line to a text, in the same form.
// - `Field::of_bit` prints a scalar as its name, and a bit of a vector as `name[index]`.
// - `gathered`: a sink on another, which gathers up to 65,536 bytes before it hands them on.
// By the contract of `put_line`, `put_numbers`, `put_pieces`, `add_word`, `add_words`, `add_line`, `Field::of_bit`.
#![tactic(auto)]

mod field;
pub mod gathered;
mod put;
mod text;

pub use field::Field;
pub use put::{put_line, put_numbers, put_pieces};
pub use text::{add_line, add_word, add_words};
