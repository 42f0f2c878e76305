// Flat names: the names of instances and a name, joined by `/`.
ghost use Rattle.std.specs.Prelude.{◌≡◌, IfOk};
ghost use Rattle.hier_model.specs.Walks.{texts};
ghost use Rattle.hier_model.specs.Names as names;

use std::alloc::Global;
use texts::{OutOfMemory, Text};

/// The flat name of a name in the module at an occurrence.
pub fn flat_name(alloc: Global, at: &[&[u8]], name: &[u8]) -> Result<Text, OutOfMemory>
    ensures { IfOk result (λ flat. flat ≡ names.flat_name (texts at.now) name.now) }
{
    let mut flat = Text::new(alloc);
    for part in at {
        flat.append(part)?;
        flat.push(b'/')?;
    }
    flat.append(name)?;
    Ok(flat)
}
