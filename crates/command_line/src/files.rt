// What a task says of its files.
ghost use Rattle.std.specs.Prelude.{◌≡◌, [], ◌∷◌, ◌++◌};
ghost use Rattle.command_edges.specs.Libraries.{name_of, names_if};
ghost use Rattle.command_edges.specs.Names.{names_of};
ghost use Rattle.command_line.specs.Files.{names_in};

use crate::file_names::FileNames;
use command_edges::TextCommand;
use insert_command::Insert;
use insert_command::demo::Demo;
use insert_command::status::InsertStatus;
use play_command::check::Check;
use play_command::vectors::Vectors;
use strip_command::Strip;
use text_command::convert::Convert;
use text_command::extended::StatusBsdl;
use text_command::flatten::Flatten;

impl<'a> FileNames<'a> {
    fn none() -> FileNames<'a>
        ensures { names_in result ≡ [] }
    {
        FileNames {
            names: ["", "", ""],
            count: 0,
        }
    }

    fn one(first: &'a str) -> FileNames<'a>
        ensures { names_in result ≡ first.now ∷ [] }
    {
        FileNames {
            names: [first, "", ""],
            count: 1,
        }
    }

    fn two(first: &'a str, second: &'a str) -> FileNames<'a>
        ensures { names_in result ≡ first.now ∷ second.now ∷ [] }
    {
        FileNames {
            names: [first, second, ""],
            count: 2,
        }
    }

    fn three(first: &'a str, second: &'a str, third: &'a str) -> FileNames<'a>
        ensures { names_in result ≡ first.now ∷ second.now ∷ third.now ∷ [] }
    {
        FileNames {
            names: [first, second, third],
            count: 3,
        }
    }

    /// The names in order.
    pub fn as_slice(&self) -> &[&'a str]
        ensures { names_of result.now ≡ names_in self.now }
    {
        &self.names[..self.count]
    }
}

/// The files of a task: those that it reads, with that of a library behind them if there is one, and those that it
/// writes; and whether it puts a text.
#[derive(Clone, Copy)]
pub struct Files<'a> {
    pub reads: FileNames<'a>,
    pub library: Option<&'a str>,
    pub writes: FileNames<'a>,
    pub puts: bool,
}

/// A task that says its own files.
pub trait FileTask<'a>: TextCommand {
    /// Its files.
    fn files(&self) -> Files<'a>
        ensures reads { names_in result.reads ++ names_if (name_of result.library)
            ≡ (Self.task self.now).reads }
        ensures writes { names_in result.writes ≡ (Self.task self.now).writes }
        ensures puts { result.puts ≡ (Self.task self.now).puts };
}

impl<'a> FileTask<'a> for Convert<'a> {
    fn files(&self) -> Files<'a> {
        Files {
            reads: FileNames::one(self.input),
            library: None,
            writes: FileNames::one(self.output),
            puts: false,
        }
    }
}

impl<'a> FileTask<'a> for StatusBsdl<'a> {
    fn files(&self) -> Files<'a> {
        Files {
            reads: FileNames::one(self.input),
            library: None,
            writes: FileNames::one(self.output),
            puts: false,
        }
    }
}

impl<'a> FileTask<'a> for Flatten<'a> {
    fn files(&self) -> Files<'a> {
        Files {
            reads: FileNames::one(self.input),
            library: self.library,
            writes: FileNames::one(self.output),
            puts: false,
        }
    }
}

impl<'a> FileTask<'a> for Insert<'a> {
    fn files(&self) -> Files<'a> {
        Files {
            reads: FileNames::two(self.netlist, self.plan),
            library: self.library,
            writes: FileNames::two(self.outnet, self.outbsdl),
            puts: true,
        }
    }
}

impl<'a> FileTask<'a> for InsertStatus<'a> {
    fn files(&self) -> Files<'a> {
        Files {
            reads: FileNames::three(self.netlist, self.plan, self.registers),
            library: self.library,
            writes: FileNames::two(self.outnet, self.outbsdl),
            puts: true,
        }
    }
}

impl<'a> FileTask<'a> for Strip<'a> {
    fn files(&self) -> Files<'a> {
        Files {
            reads: FileNames::two(self.netlist, self.bsdl),
            library: self.library,
            writes: FileNames::two(self.outnet, self.outplan),
            puts: false,
        }
    }
}

impl<'a> FileTask<'a> for Vectors<'a> {
    fn files(&self) -> Files<'a> {
        Files {
            reads: FileNames::one(self.bsdl),
            library: None,
            writes: FileNames::one(self.output),
            puts: false,
        }
    }
}

impl<'a> FileTask<'a> for Check<'a> {
    fn files(&self) -> Files<'a> {
        Files {
            reads: FileNames::three(self.netlist, self.bsdl, self.events),
            library: self.library,
            writes: FileNames::none(),
            puts: true,
        }
    }
}

impl<'a> FileTask<'a> for Demo<'a> {
    fn files(&self) -> Files<'a> {
        Files {
            reads: FileNames::none(),
            library: None,
            writes: FileNames::two(self.outnet, self.outbsdl),
            puts: true,
        }
    }
}
