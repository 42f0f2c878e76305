// The program: runs the command that its arguments are, over the machine's files and standard output.
// Its work is `run_tool` of command_line, whose contract says what each status means; here are only the two adapters.
// Own: the exit statuses are the numbers of `Status`, and 7 where the system refuses the program its words.
//
// Proved: that it is safe and comes to its end; no clause says what it does.
#![tactic(auto)]

use command_faults::Status;
use command_line::{WordList, run_tool};
use edge_io::{FileShelf, OutSink};
use std::env;
use std::io::ErrorKind;
use std::process::ExitCode;

/// The exit status where the words of the program can't be had.
const NO_WORDS: u8 = 7;

fn main(rt: HostRuntime) -> ExitCode {
    let args = match env::args(&rt) {
        Ok(args) => args,
        Err(error) if error.kind() == ErrorKind::OutOfMemory => {
            return ExitCode::from(Status::Memory.exit_number());
        }
        Err(_) => return ExitCode::from(NO_WORDS),
    };
    let mut words = WordList::new(rt.alloc());
    for word in args.skip(1) {
        if words.push(word.as_str()).is_err() {
            return ExitCode::from(Status::Memory.exit_number());
        }
    }
    let mut shelf = FileShelf::new(&rt, rt.alloc());
    let mut out = OutSink::new(&rt);
    let status = run_tool(rt.alloc(), &words, &mut shelf, &mut out);
    ExitCode::from(status.exit_number())
}
