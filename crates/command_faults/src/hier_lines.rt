ghost use Rattle.std.specs.Prelude.{◌≡◌};
ghost use Rattle.output_lines.specs.Puts.{Puts};
ghost use Rattle.command_faults.specs.Lines as lines;
ghost use Rattle.command_faults.specs.Words as words;

// Lines of the faults of several modules.

use crate::link_lines::{put_named, put_port};
use crate::text_lines::{put_count, put_memory};
use edge_io::sink::Sink;
use edge_io::whole::WriteFault;
use hier_model::{HierFault, HierWhat};

fn hier_word(what: HierWhat) -> &'static [u8]
    ensures { result.now ≡ words.hier_word what }
{
    match what {
        HierWhat::Depth => b"depth",
        HierWhat::Cells => b"cells",
        HierWhat::Nets => b"nets",
    }
}

/// Puts the line of modules that can't be made flat.
pub fn put_hier_fault<O: Sink>(out: &mut O, fault: &HierFault) -> Result<(), WriteFault>
    ensures { Puts O.given O.faults out.old out.new (lines.hier_line fault.now) result }
{
    match fault {
        HierFault::ModuleTwice { name } => put_named(out, b"ModuleTwice", name.as_bytes()),
        HierFault::ModuleMissing { name } => put_named(out, b"ModuleMissing", name.as_bytes()),
        HierFault::ModuleRecursive { name } => put_named(out, b"ModuleRecursive", name.as_bytes()),
        HierFault::TooMany { what, count, limit } => {
            put_count(out, hier_word(*what), *count, *limit)
        }
        HierFault::ModuleLink { instance, port } => put_port(
            out,
            b"ModuleLink",
            instance.as_bytes(),
            port.as_bytes(),
        ),
        HierFault::FlatName { name } => put_named(out, b"FlatName", name.as_bytes()),
        HierFault::OutOfMemory => put_memory(out),
    }
}
