ghost use Rattle.std.specs.Prelude.{◌≡◌, ◌<◌, [], ◌∷◌, map, string_bytes, IfSome};
ghost use Rattle.std.specs.List.{list_any};
ghost use Rattle.command_line.specs.Forms as forms;
ghost use Rattle.command_line.specs.Parsed.{IsCommandOf, IsNumberOf, IsPlainOf};

use crate::words::WordList;
use bsdl_device::runs::numbers::decimal;
use bsdl_device::runs::runs::is_integer;
use insert_command::Insert;
use insert_command::demo::Demo;
use insert_command::status::InsertStatus;
use play_command::check::Check;
use play_command::vectors::Vectors;
use strip_command::Strip;
use text_command::convert::{Conversion, Convert};
use text_command::extended::StatusBsdl;
use text_command::flatten::Flatten;

/// A command: the task that it is, with the names of its files.
#[derive(Clone, Copy)]
pub enum Command<'a> {
    Convert(Convert<'a>),
    StatusBsdl(StatusBsdl<'a>),
    Flatten(Flatten<'a>),
    /// Plays the events of one text on the netlist of another, with the library of a third if there is one, and puts
    /// what comes of it as it goes.
    Sim {
        netlist: &'a str,
        events: &'a str,
        library: Option<&'a str>,
    },
    Insert(Insert<'a>),
    InsertStatus(InsertStatus<'a>),
    Strip(Strip<'a>),
    Vectors(Vectors<'a>),
    Check(Check<'a>),
    Demo(Demo<'a>),
}

fn begins_with_dash(word: &str) -> bool
    ensures { result ≡ forms.begins_with_dash word.now }
{
    match word.as_bytes() {
        [first, ..] => *first == b'-',
        [] => false,
    }
}

fn has_option(words: &[String]) -> bool
    ensures { result ≡ list_any forms.begins_with_dash (map string_bytes words.now) }
{
    for word in words {
        if begins_with_dash(word.as_str()) {
            return true;
        }
    }
    false
}

// The command of two names.
fn of_two<'a>(word: &str, first: &'a str, second: &'a str) -> Option<Command<'a>>
    ensures { IsPlainOf (word.now ∷ first.now ∷ second.now ∷ []) result }
{
    match word {
        "canon" => Some(Command::Convert(Convert {
            conversion: Conversion::Canon,
            input: first,
            output: second,
        })),
        "showbsdl" => Some(Command::Convert(Convert {
            conversion: Conversion::ShowBsdl,
            input: first,
            output: second,
        })),
        "statusbsdl" => Some(Command::StatusBsdl(StatusBsdl {
            input: first,
            output: second,
        })),
        "sim" => Some(Command::Sim {
            netlist: first,
            events: second,
            library: None,
        }),
        "vectors" => Some(Command::Vectors(Vectors {
            bsdl: first,
            output: second,
        })),
        _ => None,
    }
}

// The number that 1 to 4 digits are.
#[tactic(auto, using(crate::proofs::Numbers::value_small))]
fn number_of(word: &str) -> Option<u32>
    ensures number { IsNumberOf word.now result }
    ensures small { IfSome result (λ number. number < 10000) }
{
    let digits = word.as_bytes();
    if digits.len() <= 4 && is_integer(digits) {
        Some(decimal(digits))
    } else {
        None
    }
}

// The command of three names, or of a number and two; the last of three may be that of a library.
fn of_three<'a>(word: &str, first: &'a str, second: &'a str, third: &'a str) -> Option<Command<'a>>
    ensures { IsPlainOf (word.now ∷ first.now ∷ second.now ∷ third.now ∷ []) result }
{
    match word {
        "check" => Some(Command::Check(Check {
            netlist: first,
            bsdl: second,
            events: third,
            library: None,
        })),
        "flatten" => Some(Command::Flatten(Flatten {
            input: first,
            top: second,
            output: third,
            library: None,
        })),
        "sim" => Some(Command::Sim {
            netlist: first,
            events: second,
            library: Some(third),
        }),
        "demo" => match number_of(first) {
            Some(number) => Some(Command::Demo(Demo {
                number,
                outnet: second,
                outbsdl: third,
            })),
            None => None,
        },
        _ => None,
    }
}

// The command of four names.
fn of_four<'a>(
    word: &str,
    first: &'a str,
    second: &'a str,
    third: &'a str,
    fourth: &'a str,
) -> Option<Command<'a>>
    ensures { IsPlainOf (word.now ∷ first.now ∷ second.now ∷ third.now ∷ fourth.now ∷ []) result }
{
    match word {
        "insert" => Some(Command::Insert(Insert {
            netlist: first,
            plan: second,
            outnet: third,
            outbsdl: fourth,
            library: None,
        })),
        "strip" => Some(Command::Strip(Strip {
            netlist: first,
            bsdl: second,
            outnet: third,
            outplan: fourth,
            library: None,
        })),
        "check" => Some(Command::Check(Check {
            netlist: first,
            bsdl: second,
            events: third,
            library: Some(fourth),
        })),
        "flatten" => Some(Command::Flatten(Flatten {
            input: first,
            top: second,
            output: third,
            library: Some(fourth),
        })),
        _ => None,
    }
}

// The command of five names.
fn of_five<'a>(
    word: &str,
    first: &'a str,
    second: &'a str,
    third: &'a str,
    fourth: &'a str,
    fifth: &'a str,
) -> Option<Command<'a>>
    ensures { IsPlainOf (word.now ∷ first.now ∷ second.now ∷ third.now ∷ fourth.now ∷ fifth.now ∷ []) result }
{
    let library = Some(fifth);
    match word {
        "insert" => Some(Command::Insert(Insert {
            netlist: first,
            plan: second,
            outnet: third,
            outbsdl: fourth,
            library,
        })),
        "strip" => Some(Command::Strip(Strip {
            netlist: first,
            bsdl: second,
            outnet: third,
            outplan: fourth,
            library,
        })),
        "status" => Some(Command::InsertStatus(InsertStatus {
            netlist: first,
            plan: second,
            registers: third,
            outnet: fourth,
            outbsdl: fifth,
            library: None,
        })),
        _ => None,
    }
}

// The command of six names.
fn of_six<'a>(
    word: &str,
    first: &'a str,
    second: &'a str,
    third: &'a str,
    fourth: &'a str,
    fifth: &'a str,
    sixth: &'a str,
) -> Option<Command<'a>>
    ensures { IsPlainOf (word.now ∷ first.now ∷ second.now ∷ third.now ∷ fourth.now ∷ fifth.now ∷ sixth.now ∷ []) result }
{
    match word {
        "status" => Some(Command::InsertStatus(InsertStatus {
            netlist: first,
            plan: second,
            registers: third,
            outnet: fourth,
            outbsdl: fifth,
            library: Some(sixth),
        })),
        _ => None,
    }
}

// The command that words are of which none begins with `-`.
fn plain_command(words: &[String]) -> Option<Command<'_>>
    ensures { IsPlainOf (map string_bytes words.now) result }
{
    match words {
        [word, first, second] => of_two(word.as_str(), first.as_str(), second.as_str()),
        [word, first, second, third] => of_three(
            word.as_str(),
            first.as_str(),
            second.as_str(),
            third.as_str(),
        ),
        [word, first, second, third, fourth] => of_four(
            word.as_str(),
            first.as_str(),
            second.as_str(),
            third.as_str(),
            fourth.as_str(),
        ),
        [word, first, second, third, fourth, fifth] => of_five(
            word.as_str(),
            first.as_str(),
            second.as_str(),
            third.as_str(),
            fourth.as_str(),
            fifth.as_str(),
        ),
        [word, first, second, third, fourth, fifth, sixth] => of_six(
            word.as_str(),
            first.as_str(),
            second.as_str(),
            third.as_str(),
            fourth.as_str(),
            fifth.as_str(),
            sixth.as_str(),
        ),
        _ => None,
    }
}

/// The command that the words are. None where they are no command.
pub fn command_of(words: &WordList) -> Option<Command<'_>>
    ensures { IsCommandOf words.now result }
{
    let words = words.as_slice();
    if has_option(words) {
        return None;
    }
    plain_command(words)
}
