// Texts of lines: the lines of a text, the words of a line, and the lines that are skipped, read from the
// front and written.
// Contracts cite specs/LinesWords.antt (lines, words, kept lines), specs/Forms.antt (lines by their words) and
// specs/Rows.antt.
// Own: no chapter of a standard speaks of it.
//
// - `LineReader` goes through the kept lines of a text with their numbers; `after_key` and `one_word` to
//   `four_words` see exactly the lines of that form; `put_two` to `put_five` write a line of so many words.
// - The kept lines of a text are rows of words, and such rows, where they are written, read back.
// By the contract of `LineReader`, `split_line`, `next_word`, `is_remark`, `after_key`, `one_word` to `four_words`,
// `put_two` to `put_five` and its law functions.

mod forms;
mod laws;
mod printed_lines;
mod reader;
mod words;

pub use forms::{after_key, four_words, one_word, three_words, two_words};
pub use laws::{rows_of_texts_are_rows, texts_of_rows_read_back};
pub use printed_lines::{put_five, put_four, put_three, put_two};
pub use reader::LineReader;
pub use words::{is_remark, next_word, split_line};
