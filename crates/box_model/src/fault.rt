use link_model::BitName;
use texts::{OutOfMemory, Text};

/// Why the boxes of a module can't be opened; of several faults, the first by this order, and of one kind the first in
/// the library or the text. `BoxTristate` is told of the linked netlist.
#[derive(Debug, Drop)]
pub enum BoxFault {
    /// No instance of this name is of a flip-flop.
    BoxUnknown { instance: Text },
    /// A link of no port, of one that was linked before, or that hasn't the port's bits.
    BoxLink { instance: Text, port: Text },
    /// A hidden name that is too long, or that is taken.
    BoxName { name: Text },
    /// A three-state gate drives the bit of a hidden output.
    BoxTristate { bit: BitName },
    OutOfMemory,
}

impl From<OutOfMemory> for BoxFault {
    ghost use Rattle.std.specs.Prelude.{◌≡◌};
    ghost use Rattle.box_model.specs.declared.fault.BoxFault.TheVariants as fault;

    ghost from_gives = { λ _ e. e ≡ fault.OutOfMemory };

    fn from(_error: OutOfMemory) -> BoxFault {
        BoxFault::OutOfMemory
    }
}
