use box_model::BoxFault;
use link_model::LinkFault;
use texts::OutOfMemory;

/// Why a module with boxes is no netlist; of several faults, the first by this order, but that a three-state gate at a
/// hidden output comes behind those of linking.
#[derive(Debug, Drop)]
pub enum BoxLinkFault {
    /// Its boxes can't be opened, or a three-state gate drives a hidden output.
    Box(BoxFault),
    /// With its boxes open it can't be linked.
    Link(LinkFault),
    OutOfMemory,
}

impl From<OutOfMemory> for BoxLinkFault {
    ghost use Rattle.std.specs.Prelude.{◌≡◌};
    ghost use Rattle.box_links.specs.declared.fault.BoxLinkFault.TheVariants as made;

    ghost from_gives = { λ _ e. e ≡ made.OutOfMemory };

    fn from(_error: OutOfMemory) -> BoxLinkFault {
        BoxLinkFault::OutOfMemory
    }
}
