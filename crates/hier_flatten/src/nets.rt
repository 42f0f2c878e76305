// What modules declare under names.
ghost use Rattle.std.specs.Prelude.{◌≡◌, Some, map, position, IfOk, IfSome};
ghost use Rattle.std.specs.Option.{option_copied};
ghost use Rattle.std.specs.Str.{bytes_eq};
ghost use Rattle.hier_model.specs.WalkNames.{texts};
ghost use Rattle.hier_model.specs.Visits.{module_named};
ghost use Rattle.link_model.specs.Nets as model;
ghost use Rattle.hier_model.specs.Faults as faults;
ghost use Rattle.hier_flatten.specs.Nets as nets;

use hier_counts::width_of;
use hier_model::walk::ModuleTable;
use indexmap::IndexMap;
use std::alloc::Global;
use std::marker::Model;
use texts::OutOfMemory;
use texts::first_faults::first_places;
use verilog_tree::{Module, Operand, Port, Range, Wire};

/// What a module declares, found by name: of ports of one name the first, and so of wires.
#[derive(Drop)]
pub struct NetTable<'a> {
    module: &'a Module,
    ports: IndexMap<&'a [u8], usize>,
    wires: IndexMap<&'a [u8], usize>,
}

impl<'a> Model for NetTable<'a> {
    ghost use Rattle.verilog_tree.specs.declared.tree.Module.{Module};
    ghost use Rattle.hier_flatten.specs.Nets.{FindsNets};

    ghost Value = { Module };

    ghost view = { λ t. t.module.now };

    ghost invariant = { λ t. FindsNets t.module.now t.ports.entries t.wires.entries };
}

fn port_names<'a>(alloc: Global, ports: &'a [Port]) -> Result<Vec<&'a [u8]>, OutOfMemory>
    ensures { IfOk result (λ names. texts names.items ≡ map (λ p. p.name) ports.now) }
{
    let mut names = Vec::new(alloc);
    for port in ports {
        names.push(port.name.as_bytes())?;
    }
    Ok(names)
}

fn wire_names<'a>(alloc: Global, wires: &'a [Wire]) -> Result<Vec<&'a [u8]>, OutOfMemory>
    ensures { IfOk result (λ names. texts names.items ≡ map (λ w. w.name) wires.now) }
{
    let mut names = Vec::new(alloc);
    for wire in wires {
        names.push(wire.name.as_bytes())?;
    }
    Ok(names)
}

fn is_within(range: Range, index: u32) -> bool
    ensures { result ≡ model.is_within range index }
{
    (range.left <= index && index <= range.right) || (range.right <= index && index <= range.left)
}

// How many bits a net has as a whole, or at an index; none where the index lies outside.
fn net_width(range: Option<Range>, index: Option<u32>) -> Option<u64>
    ensures { result ≡ nets.range_width range index }
{
    let Some(index) = index else {
        return Some(width_of(range));
    };
    match range {
        Some(range) if is_within(range, index) => Some(1),
        _ => None,
    }
}

impl<'a> NetTable<'a> {
    /// A table of what a module declares.
    pub fn of(alloc: Global, module: &'a Module) -> Result<NetTable<'a>, OutOfMemory>
        ensures { IfOk result (λ table. table ≡ module.now) }
    {
        let names = port_names(alloc, module.ports.as_slice())?;
        let ports = first_places(alloc, &names)?;
        let names = wire_names(alloc, module.wires.as_slice())?;
        let wires = first_places(alloc, &names)?;
        Ok(NetTable {
            module,
            ports,
            wires,
        })
    }

    /// The module.
    pub fn module(&self) -> &'a Module
        ensures { result.now ≡ self.now }
    {
        self.module
    }

    fn port_place(&self, name: &[u8]) -> Option<usize>
        ensures { result ≡ position (λ p. bytes_eq name.now p.name) self.now.ports }
    {
        self.ports.get(name).copied()
    }

    fn wire_place(&self, name: &[u8]) -> Option<usize>
        ensures { result ≡ position (λ w. bytes_eq name.now w.name) self.now.wires }
    {
        self.wires.get(name).copied()
    }

    /// The port of a name.
    pub fn port(&self, name: &[u8]) -> Option<&'a Port>
        ensures { option_copied result ≡ faults.port_named self.now name.now }
    {
        match self.port_place(name) {
            None => None,
            Some(place) => Some(&self.module.ports.as_slice()[place]),
        }
    }

    fn wire(&self, name: &[u8]) -> Option<&'a Wire>
        ensures { option_copied result ≡ nets.wire_named self.now name.now }
    {
        match self.wire_place(name) {
            None => None,
            Some(place) => Some(&self.module.wires.as_slice()[place]),
        }
    }

    /// The range of what is declared under a name, ports before wires; none where nothing is.
    pub fn range(&self, name: &[u8]) -> Option<Option<Range>>
        ensures { result ≡ nets.range_named self.now name.now }
    {
        if let Some(port) = self.port(name) {
            return Some(port.range);
        }
        let wire = self.wire(name)?;
        Some(wire.range)
    }

    /// How many bits an operand has; none where it names no net, or no bit of it.
    pub fn width(&self, operand: &Operand) -> Option<u64>
        ensures { result ≡ faults.operand_width self.now operand.now }
    {
        match operand {
            Operand::Const(_) => Some(1),
            Operand::Bit(bit) => {
                let range = self.range(bit.net.as_bytes())?;
                net_width(range, bit.index)
            }
        }
    }
}

/// The nets of each module of a table.
#[derive(Drop)]
pub struct NetTables<'a> {
    modules: &'a ModuleTable<'a>,
    tables: Vec<NetTable<'a>>,
}

impl<'a> Model for NetTables<'a> {
    ghost use Rattle.std.specs.Prelude.{◌≡◌, List};
    ghost use Rattle.verilog_tree.specs.declared.tree.Module.{Module};

    ghost Value = { List Module };

    ghost view = { λ t. t.modules.now };

    ghost invariant = { λ t. t.tables.items ≡ t.modules.now };
}

fn tables_of<'a>(alloc: Global, modules: &'a [Module]) -> Result<Vec<NetTable<'a>>, OutOfMemory>
    ensures { IfOk result (λ tables. tables.items ≡ modules.now) }
{
    let mut tables = Vec::new(alloc);
    for module in modules {
        tables.push(NetTable::of(alloc, module)?)?;
    }
    Ok(tables)
}

impl<'a> NetTables<'a> {
    /// The nets of the modules.
    pub fn of(alloc: Global, modules: &'a ModuleTable<'a>) -> Result<NetTables<'a>, OutOfMemory>
        ensures { IfOk result (λ tables. tables ≡ modules.now) }
    {
        let tables = tables_of(alloc, modules.as_slice())?;
        Ok(NetTables { modules, tables })
    }

    /// The modules.
    pub fn modules(&self) -> &'a ModuleTable<'a>
        ensures { result.now ≡ self.now }
    {
        self.modules
    }

    /// The nets of the first module that has this one's name.
    pub fn find(&self, module: &Module) -> Option<&NetTable<'a>>
        ensures { option_copied result ≡ module_named self.now module.now.name }
    {
        match self.modules.place(module.name.as_bytes()) {
            None => None,
            Some(place) => Some(&self.tables[place]),
        }
    }
}
