ghost use Rattle.std.specs.Prelude.{◌≡◌};
ghost use Rattle.verilog_tree.specs.Heads as heads;

use crate::{Dir, GateKind};
use verilog_lexicon::reserved::Reserved;

/// What an item begins with, other than the name of a cell.
#[derive(Clone, Copy, Drop)]
pub enum ItemHead {
    Direction(Dir),
    Wire,
    Assign,
    Gate(GateKind),
    End,
}

/// The direction that a key word names.
pub fn dir_of(reserved: Reserved) -> Option<Dir>
    ensures { result ≡ heads.dir_of reserved }
{
    match reserved {
        Reserved::Input => Some(Dir::Input),
        Reserved::Output => Some(Dir::Output),
        Reserved::Inout => Some(Dir::Inout),
        _ => None,
    }
}

/// The item that a key word begins.
pub fn item_head_of(reserved: Reserved) -> Option<ItemHead>
    ensures { result ≡ heads.item_head_of reserved }
{
    match reserved {
        Reserved::Input => Some(ItemHead::Direction(Dir::Input)),
        Reserved::Output => Some(ItemHead::Direction(Dir::Output)),
        Reserved::Inout => Some(ItemHead::Direction(Dir::Inout)),
        Reserved::Wire => Some(ItemHead::Wire),
        Reserved::Assign => Some(ItemHead::Assign),
        Reserved::And => Some(ItemHead::Gate(GateKind::And)),
        Reserved::Or => Some(ItemHead::Gate(GateKind::Or)),
        Reserved::Nand => Some(ItemHead::Gate(GateKind::Nand)),
        Reserved::Nor => Some(ItemHead::Gate(GateKind::Nor)),
        Reserved::Xor => Some(ItemHead::Gate(GateKind::Xor)),
        Reserved::Xnor => Some(ItemHead::Gate(GateKind::Xnor)),
        Reserved::Buf => Some(ItemHead::Gate(GateKind::Buf)),
        Reserved::Not => Some(ItemHead::Gate(GateKind::Not)),
        Reserved::Bufif0 => Some(ItemHead::Gate(GateKind::Bufif0)),
        Reserved::Bufif1 => Some(ItemHead::Gate(GateKind::Bufif1)),
        Reserved::Endmodule => Some(ItemHead::End),
        _ => None,
    }
}
