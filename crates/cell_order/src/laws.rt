ghost use Rattle.cell_order.specs.Loops.{LooplessHasOrder};

/// A law: cells of which no gates read in a loop have an order, whether or not `order_cells` finds the memory.
pub fn some_cell_order()
    ensures { LooplessHasOrder }
{}
