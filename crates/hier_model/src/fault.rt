use texts::{OutOfMemory, Text};

/// What a hierarchy may have too many of.
#[derive(Clone, Copy, Drop, PartialEq, Eq)]
pub enum HierWhat {
    Depth,
    Cells,
    Nets,
}

/// Why modules aren't made flat: one variant a cause. Of several that stand the first is told, in the order of the
/// variants; under one variant, the first in the text or in flat order.
#[derive(Drop)]
pub enum HierFault {
    /// A module's name came before, or is that of a cell.
    ModuleTwice {
        name: Text,
    },
    /// No module and no cell has the name.
    ModuleMissing {
        name: Text,
    },
    /// A module holds itself.
    ModuleRecursive {
        name: Text,
    },
    /// There are more of them than the limit.
    TooMany {
        what: HierWhat,
        count: u64,
        limit: u64,
    },
    /// A module's port can't be linked so.
    ModuleLink {
        instance: Text,
        port: Text,
    },
    /// A flat name is too long, or came before.
    FlatName {
        name: Text,
    },
    OutOfMemory,
}

impl From<OutOfMemory> for HierFault {
    ghost use Rattle.std.specs.Prelude.{◌≡◌};
    ghost use Rattle.hier_model.specs.declared.fault.HierFault.TheVariants as fault;

    ghost from_gives = { λ _ e. e ≡ fault.OutOfMemory };

    fn from(_error: OutOfMemory) -> HierFault {
        HierFault::OutOfMemory
    }
}
