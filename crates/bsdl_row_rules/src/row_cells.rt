// Kinds and functions of boundary cells.
ghost use Rattle.std.specs.Prelude.{◌≡◌};
ghost use Rattle.bsdl_device.specs.RowRules as row_rule;

use bsdl_device::RowEntry;
use cell_library::{BoundaryKind, Function};

/// Whether the functions are one.
pub fn is_function(wanted: Function, function: Function) -> bool
    ensures { result ≡ row_rule.is_function wanted function }
{
    match (wanted, function) {
        (Function::Input, Function::Input) => true,
        (Function::Output2, Function::Output2) => true,
        (Function::Output3, Function::Output3) => true,
        (Function::Control, Function::Control) => true,
        (Function::Bidir, Function::Bidir) => true,
        (Function::Clock, Function::Clock) => true,
        (_, _) => false,
    }
}

/// Whether the cells are one.
pub fn is_cell(wanted: BoundaryKind, cell: BoundaryKind) -> bool
    ensures { result ≡ row_rule.is_cell wanted cell }
{
    match (wanted, cell) {
        (BoundaryKind::Bc1, BoundaryKind::Bc1) => true,
        (BoundaryKind::Bc2, BoundaryKind::Bc2) => true,
        (BoundaryKind::Bc4, BoundaryKind::Bc4) => true,
        (BoundaryKind::Bc7, BoundaryKind::Bc7) => true,
        (_, _) => false,
    }
}

/// Whether the row is a control cell's.
pub fn is_control(row: &RowEntry) -> bool
    ensures { result ≡ row_rule.is_control row.now }
{
    is_function(Function::Control, row.function)
}
