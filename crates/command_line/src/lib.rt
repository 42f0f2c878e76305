// The tool's top call: the words of a command, run over any shelf of texts and any sink.
// The contract of `run_tool` cites specs/Causes.antt, which stands on Forms.antt (the words of each command),
// Tasks.antt (its task, as the crate of the command says) and Names.antt (that its outputs have names of their own).
// A command is the task that it is, which says its own files (`files`); `dispatch` looks at their names and runs it,
// and Outcomes.antt says what comes of it.
// IEEE Std 1364-2001 and IEEE Std 1149.1-2001 for the texts that are read and written; commands, faults and
// statuses are own.
//
// Proved, of `run_tool`:
// - **Done.** With status 0, or 6, the words are a command of a table, no word begins with `-`, no output has the
//   name of another file, and the command did what its own crate says: `text_command`, `play_command`,
//   `insert_command` or `strip_command`. Conversions, `statusbsdl`, `flatten`, `strip` and `vectors` put nothing. Only
//   `sim` and `check` end with 6, exactly where an expectation isn't met.
// - **Refused.** With any other status some fault stands that has this status: the words are no command, or an
//   output has the name of another file (the first that has is told), or the fault stands in the command as its
//   own crate says, with its place and words, and with no fault of an earlier check; and the sink got its line,
//   whole unless the sink's own count of faults rose. A read or a write that failed is told by the name of a file
//   whose own count of faults rose, and a failed put by that of standard output, whose count rose. One answer is
//   looser: want of memory may come in place of any other fault.
// - **What stands afterwards.** Only a failed write leaves a file changed, only under the outputs' names, and then
//   as the fault says that stands. Before the fault's line nothing was put, or where giving failed a front of what
//   the command puts.
// - **Completeness.** Where no fault stands in the words and in what the command reads, and neither the shelf's
//   counts of the command's own files nor the sink's count rises, the command comes to its end, or wants memory.
// - **A check never misses.** A check of texts that belong together (`AreOfChip`) by the program of that device,
//   in any spelling, never ends with 6.
// - The counts of faults never fall, and what the shelf holds stays.
// Proved, of the words: `command_of` gives the command that the words are, and none exactly where they are none or
// one begins with `-`; words are one command at most; `WordList::push` adds a word at the end, or leaves the list
// as it was; `WordList::new` is empty.
// By the contract of `run_tool`, `command_of` and `WordList`.
#![tactic(auto)]

mod command;
mod dispatch;
mod file_names;
mod files;
mod names;
mod tool;
mod words;

pub use tool::run_tool;
pub use words::WordList;
