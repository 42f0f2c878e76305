// Modules and their parts.
use crate::equality::values::Same;
use verilog_tree::{Bit, Gate, Instance, Item, Link, Module, Operand, Port, Range, Wire};

impl Same for Range {
    fn is_same(&self, other: &Range) -> bool {
        self.left == other.left && self.right == other.right
    }
}

impl Same for Port {
    fn is_same(&self, other: &Port) -> bool {
        self.name.is_same(&other.name)
            && self.dir.is_same(&other.dir)
            && self.range.is_same(&other.range)
    }
}

impl Same for Wire {
    fn is_same(&self, other: &Wire) -> bool {
        self.name.is_same(&other.name) && self.range.is_same(&other.range)
    }
}

impl Same for Bit {
    fn is_same(&self, other: &Bit) -> bool {
        self.net.is_same(&other.net) && self.index.is_same(&other.index)
    }
}

impl Same for Operand {
    fn is_same(&self, other: &Operand) -> bool {
        match (self, other) {
            (Operand::Bit(one), Operand::Bit(two)) => one.is_same(two),
            (Operand::Const(one), Operand::Const(two)) => one.is_same(two),
            (Operand::Bit(_), Operand::Const(_)) | (Operand::Const(_), Operand::Bit(_)) => false,
        }
    }
}

impl Same for Gate {
    fn is_same(&self, other: &Gate) -> bool {
        self.kind.is_same(&other.kind)
            && self.name.is_same(&other.name)
            && self.output.is_same(&other.output)
            && self.inputs.is_same(&other.inputs)
    }
}

impl Same for Link {
    fn is_same(&self, other: &Link) -> bool {
        self.port.is_same(&other.port) && self.operand.is_same(&other.operand)
    }
}

impl Same for Instance {
    fn is_same(&self, other: &Instance) -> bool {
        self.cell.is_same(&other.cell)
            && self.name.is_same(&other.name)
            && self.links.is_same(&other.links)
    }
}

impl Same for Item {
    fn is_same(&self, other: &Item) -> bool {
        match (self, other) {
            (Item::Gate(one), Item::Gate(two)) => one.is_same(two),
            (Item::Instance(one), Item::Instance(two)) => one.is_same(two),
            (
                Item::Assign { output, input },
                Item::Assign {
                    output: other_output,
                    input: other_input,
                },
            ) => output.is_same(other_output) && input.is_same(other_input),
            (Item::Gate(_), Item::Instance(_))
            | (Item::Gate(_), Item::Assign { .. })
            | (Item::Instance(_), Item::Gate(_))
            | (Item::Instance(_), Item::Assign { .. })
            | (Item::Assign { .. }, Item::Gate(_))
            | (Item::Assign { .. }, Item::Instance(_)) => false,
        }
    }
}

impl Same for Module {
    fn is_same(&self, other: &Module) -> bool {
        self.name.is_same(&other.name)
            && self.ports.is_same(&other.ports)
            && self.wires.is_same(&other.wires)
            && self.items.is_same(&other.items)
    }
}
