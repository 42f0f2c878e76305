// Kinds of gates as the text names them.
ghost use Rattle.std.specs.Prelude.{◌≡◌};
ghost use Rattle.netlist_unlink.specs.Trees.{gate_of};

use cell_library::Kind;
use verilog_tree::GateKind;

/// The gate of a kind, if it is one.
pub fn gate_kind(kind: Kind) -> Option<GateKind>
    ensures { result ≡ gate_of kind }
{
    match kind {
        Kind::And => Some(GateKind::And),
        Kind::Or => Some(GateKind::Or),
        Kind::Nand => Some(GateKind::Nand),
        Kind::Nor => Some(GateKind::Nor),
        Kind::Xor => Some(GateKind::Xor),
        Kind::Xnor => Some(GateKind::Xnor),
        Kind::Buf => Some(GateKind::Buf),
        Kind::Not => Some(GateKind::Not),
        Kind::Bufif0 => Some(GateKind::Bufif0),
        Kind::Bufif1 => Some(GateKind::Bufif1),
        Kind::Assign | Kind::Mux2 | Kind::Flop(_) | Kind::Listed(_) => None,
    }
}
