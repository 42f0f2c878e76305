// Lines of the faults of libraries.
ghost use Rattle.std.specs.Prelude.{[], ◌∷◌, codes};
ghost use Rattle.std.specs.Fmt.{decimal};
ghost use Rattle.output_lines.specs.Puts.{Puts};
ghost use Rattle.output_lines.specs.Lines.{words_line};
ghost use Rattle.command_faults.specs.Lines as lines;

use crate::link_lines::put_named;
use crate::text_lines::{put_memory, put_place};
use cell_text::LibFault;
use edge_io::sink::Sink;
use edge_io::whole::WriteFault;
use output_lines::{Field, put_line};

// How many listed cells there are, where 4,096 are the limit.
fn put_listed<O: Sink>(out: &mut O, count: u64) -> Result<(), WriteFault>
    ensures { Puts O.given O.faults out.old out.new
        (words_line (codes "TooMany") (codes "listed" ∷ decimal count ∷ decimal 4096 ∷ [])) result }
{
    let fields = [
        Field::Word(b"listed"),
        Field::Number(count),
        Field::Number(4096),
    ];
    put_line(out, &Field::Word(b"TooMany"), &fields)
}

/// Puts the line of a text that is no library.
pub fn put_library_fault<O: Sink>(out: &mut O, fault: &LibFault) -> Result<(), WriteFault>
    ensures { Puts O.given O.faults out.old out.new (lines.library_line fault.now) result }
{
    match fault {
        LibFault::LibLine { line } => put_place(out, b"LibLine", *line),
        LibFault::TooMany { count } => put_listed(out, *count),
        LibFault::LibName { name } => put_named(out, b"LibName", name.as_bytes()),
        LibFault::LibBody { name } => put_named(out, b"LibBody", name.as_bytes()),
        LibFault::OutOfMemory => put_memory(out),
    }
}
