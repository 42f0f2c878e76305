// The names of the hidden ports of a module, as they would be.
ghost use Rattle.std.specs.Prelude.{◌≡◌, ◌++◌, ◌∷◌, [], find, map, option_copied, IfOk, OnOk};
ghost use Rattle.std.specs.List.{flat_map};
ghost use Rattle.std.specs.Str.{bytes_eq};
ghost use Rattle.box_trees.specs.HiddenNames as names;
ghost use Rattle.box_trees.specs.HiddenNames.{names_of};

use box_model::BoxPort;
use box_tables::{BoxTable, Declarations, LinkTable, NamePlaces, hidden_name};
use std::alloc::Global;
use std::marker::Model;
use texts::{OutOfMemory, Row, Text};
use verilog_tree::{Instance, Item, Module, Range};

/// A hidden name, whether a wire of it joins the port, and the range of a linked vector.
#[derive(Drop)]
pub(crate) struct HiddenName {
    pub(crate) name: Text,
    pub(crate) joined: bool,
    pub(crate) vector: Option<Range>,
}

fn name_at(
    alloc: Global,
    nets: &Declarations<'_>,
    instance: &Instance,
    links: &LinkTable<'_>,
    port: &BoxPort,
) -> Result<HiddenName, OutOfMemory>
    requires { links.now ≡ instance.now.links }
    ensures { IfOk result (λ made. made ≡ names.name_at nets.now instance.now port.now) }
{
    let name = hidden_name(alloc, instance.name.as_bytes(), port.name.as_bytes())?;
    match links.find(port.name.as_bytes()) {
        None => Ok(HiddenName {
            name,
            joined: false,
            vector: None,
        }),
        Some(operand) => {
            let joined = nets.joins(name.as_bytes(), port.range, operand);
            Ok(HiddenName {
                name,
                joined,
                vector: port.range,
            })
        }
    }
}

// Adds those of an instance with these cut ports.
fn add_ports(
    alloc: Global,
    nets: &Declarations<'_>,
    instance: &Instance,
    ports: &[BoxPort],
    hidden: &mut Row<HiddenName>,
) -> Result<(), OutOfMemory>
    ensures { OnOk result (hidden.new
        ≡ hidden.old ++ map (names.name_at nets.now instance.now) ports.now) }
{
    let links = LinkTable::of(alloc, instance.links.as_slice())?;
    for port in ports {
        hidden.push(name_at(alloc, nets, instance, &links, port)?)?;
    }
    Ok(())
}

fn add_item(
    alloc: Global,
    table: &BoxTable<'_>,
    nets: &Declarations<'_>,
    item: &Item,
    hidden: &mut Row<HiddenName>,
) -> Result<(), OutOfMemory>
    ensures { OnOk result (hidden.new
        ≡ hidden.old ++ names.names_at table.now nets.now item.now) }
{
    match item {
        Item::Gate(_) | Item::Assign { .. } => Ok(()),
        Item::Instance(instance) => match table.ports_of(instance) {
            None => Ok(()),
            Some(ports) => add_ports(alloc, nets, instance, ports.as_slice(), hidden),
        },
    }
}

fn names_of_items(
    alloc: Global,
    table: &BoxTable<'_>,
    nets: &Declarations<'_>,
    items: &[Item],
) -> Result<Row<HiddenName>, OutOfMemory>
    ensures { IfOk result (λ hidden. hidden
        ≡ flat_map (names.names_at table.now nets.now) items.now) }
{
    let mut hidden = Row::new(alloc);
    for item in items {
        add_item(alloc, table, nets, item, &mut hidden)?;
    }
    Ok(hidden)
}

/// The hidden names of all ports that are cut, in order.
pub(crate) fn hidden_names(
    alloc: Global,
    table: &BoxTable<'_>,
    tree: &Module,
) -> Result<Row<HiddenName>, OutOfMemory>
    ensures { IfOk result (λ hidden. hidden
        ≡ flat_map (names.names_at table.now tree.now) tree.now.items) }
{
    let nets = Declarations::of(alloc, tree)?;
    let hidden = names_of_items(alloc, table, &nets, tree.items.as_slice())?;
    Ok(hidden)
}

/// Hidden names, each of which is found where it first stands.
#[derive(Drop)]
pub(crate) struct HiddenTable<'a> {
    hidden: &'a [HiddenName],
    places: NamePlaces<'a>,
}

impl<'a> Model for HiddenTable<'a> {
    ghost use Rattle.std.specs.Prelude.{◌≡◌, List};
    ghost use Rattle.box_trees.specs.declared.hidden_names.HiddenName.{HiddenName};
    ghost use Rattle.box_trees.specs.HiddenNames.{names_of};

    ghost Value = { List HiddenName };

    ghost view = { λ t. t.hidden.now };

    ghost invariant = { λ t. t.places ≡ names_of t.hidden.now };
}

impl<'a> HiddenTable<'a> {
    /// A table of hidden names.
    pub(crate) fn of(
        alloc: Global,
        hidden: &'a [HiddenName],
    ) -> Result<HiddenTable<'a>, OutOfMemory>
        ensures { IfOk result (λ table. table ≡ hidden.now) }
    {
        let mut names = Vec::new(alloc);
        for one in hidden {
            names.push(one.name.as_bytes())?;
        }
        let places = NamePlaces::of(alloc, names)?;
        Ok(HiddenTable { hidden, places })
    }

    /// The first of a name.
    pub(crate) fn find(&self, name: &[u8]) -> Option<&'a HiddenName>
        ensures { option_copied result ≡ find (λ h. bytes_eq name.now h.name) self.now }
    {
        match self.places.find(name) {
            None => None,
            Some(place) => Some(&self.hidden[place]),
        }
    }
}
