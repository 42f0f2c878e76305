use bsdl_device::registers::TestRegister;
use netlist_model::NetId;
use texts::Row;

/// A data register that fits a netlist.
#[derive(Drop)]
pub struct FittedRegister {
    pub register: TestRegister,
    /// The nets that it captures; the first is nearest TDO.
    pub nets: Row<NetId>,
}

/// Data registers that fit a netlist.
#[derive(Drop)]
pub struct FittedStatus {
    /// In the order of the text.
    pub registers: Row<FittedRegister>,
}
