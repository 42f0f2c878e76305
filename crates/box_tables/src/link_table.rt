// The links of an instance, by port.
ghost use Rattle.std.specs.Prelude.{◌≡◌, ◌∷◌, [], ◌++◌, filter, option_copied, IfOk, OnOk};
ghost use Rattle.texts.specs.Repeated.{texts};
ghost use Rattle.box_model.specs.Ports.{linked_to};
ghost use Rattle.box_tables.specs.Links.{is_linked, lent_links, link_names};

use crate::name_places::NamePlaces;
use std::alloc::Global;
use std::marker::Model;
use texts::OutOfMemory;
use verilog_tree::{Link, Operand};

/// The links of an instance: of each port the first that isn't empty is found.
#[derive(Drop)]
pub struct LinkTable<'a> {
    links: &'a [Link],
    linked: Vec<&'a Link>,
    places: NamePlaces<'a>,
}

impl<'a> Model for LinkTable<'a> {
    ghost use Rattle.std.specs.Prelude.{List};
    ghost use Rattle.verilog_tree.specs.declared.tree.Link.{Link};
    ghost use Rattle.box_tables.specs.Links.{HoldsLinks, lent_links};

    ghost Value = { List Link };

    ghost view = { λ t. t.links.now };

    ghost invariant = { λ t. HoldsLinks t.links.now (lent_links t.linked.items) t.places };
}

fn add_linked<'a>(linked: &mut Vec<&'a Link>, link: &'a Link) -> Result<(), OutOfMemory>
    ensures { OnOk result (lent_links linked.new.items
        ≡ lent_links linked.old.items ++ filter is_linked (link.now ∷ [])) }
{
    if link.operand.is_some() {
        linked.push(link)?;
    }
    Ok(())
}

// The links that aren't empty.
fn linked_of<'a>(alloc: Global, links: &'a [Link]) -> Result<Vec<&'a Link>, OutOfMemory>
    ensures { IfOk result (λ linked. lent_links linked.items ≡ filter is_linked links.now) }
{
    let mut linked = Vec::new(alloc);
    for link in links {
        add_linked(&mut linked, link)?;
    }
    Ok(linked)
}

fn add_port<'a>(names: &mut Vec<&'a [u8]>, link: &'a Link) -> Result<(), OutOfMemory>
    ensures { OnOk result (texts names.new.items
        ≡ texts names.old.items ++ link_names (filter is_linked (link.now ∷ []))) }
{
    if link.operand.is_some() {
        names.push(link.port.as_bytes())?;
    }
    Ok(())
}

// The ports of these, in order.
fn ports_of<'a>(alloc: Global, links: &'a [Link]) -> Result<Vec<&'a [u8]>, OutOfMemory>
    ensures { IfOk result (λ names. texts names.items ≡ link_names (filter is_linked links.now)) }
{
    let mut names = Vec::new(alloc);
    for link in links {
        add_port(&mut names, link)?;
    }
    Ok(names)
}

impl<'a> LinkTable<'a> {
    /// A table of links.
    pub fn of(alloc: Global, links: &'a [Link]) -> Result<LinkTable<'a>, OutOfMemory>
        ensures { IfOk result (λ table. table ≡ links.now) }
    {
        let linked = linked_of(alloc, links)?;
        let names = ports_of(alloc, links)?;
        let places = NamePlaces::of(alloc, names)?;
        Ok(LinkTable {
            links,
            linked,
            places,
        })
    }

    /// What a port is linked to.
    pub fn find(&self, port: &[u8]) -> Option<&'a Operand>
        ensures { option_copied result ≡ linked_to self.now port.now }
    {
        match self.places.find(port) {
            None => None,
            Some(place) => self.linked[place].operand.as_ref(),
        }
    }
}
