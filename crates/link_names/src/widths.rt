// Bits of the wrong width, and constants on outputs.
ghost use Rattle.std.specs.Prelude.{◌≡◌, None, IsTrue, IfOk};
ghost use Rattle.link_model.specs.Lists.{first_in};
ghost use Rattle.link_model.specs.Faults.{item_bits, link_width, item_width};
ghost use Rattle.link_names.specs.declared.bits.BitTest.TheVariants.{Any};
ghost use Rattle.link_names.specs.CellNumbers.{HasNumbers};
ghost use Rattle.link_names.specs.Tests.{first_at, are_clear};
ghost use Rattle.link_names.specs.Views.{entries_of};

use crate::bits::{BitTest, check_bit, check_item};
use crate::cell_numbers::kind_of;
use crate::declarations::Declaration;
use cell_library::{Kind, Library, PortPlace, port_of};
use indexmap::IndexMap;
use link_model::LinkFault;
use std::alloc::Global;
use texts::{OutOfMemory, Text};
use verilog_tree::{Instance, Item, Link, Operand};

fn check_link(
    alloc: Global,
    library: &Library,
    table: &IndexMap<&[u8], Declaration>,
    instance: &Instance,
    kind: Kind,
    link: &Link,
) -> Result<Option<LinkFault>, OutOfMemory>
    ensures { IfOk result (λ fault. fault
        ≡ link_width library.now (entries_of table.now) instance.now kind link.now) }
{
    match &link.operand {
        Some(Operand::Bit(bit)) => check_bit(alloc, table, BitTest::WrongWidth, bit),
        Some(Operand::Const(_)) => match port_of(library, kind, link.port.as_bytes()) {
            Some(PortPlace::Output) => Ok(Some(LinkFault::WrongWidth {
                name: Text::from_bytes(alloc, instance.name.as_bytes())?,
            })),
            _ => Ok(None),
        },
        None => Ok(None),
    }
}

fn check_links(
    alloc: Global,
    library: &Library,
    table: &IndexMap<&[u8], Declaration>,
    instance: &Instance,
    kind: Kind,
    links: &[Link],
) -> Result<Option<LinkFault>, OutOfMemory>
    ensures { IfOk result (λ fault. fault
        ≡ first_in (link_width library.now (entries_of table.now) instance.now kind) links.now) }
{
    for link in links {
        match check_link(alloc, library, table, instance, kind, link)? {
            Some(fault) => return Ok(Some(fault)),
            None => {}
        }
    }
    Ok(None)
}

fn check_width(
    alloc: Global,
    library: &Library,
    numbers: &IndexMap<&[u8], u32>,
    table: &IndexMap<&[u8], Declaration>,
    item: &Item,
    clear: bool,
) -> Result<Option<LinkFault>, OutOfMemory>
    requires numbers { HasNumbers library.now numbers.now }
    requires clear { IsTrue clear → first_at Any (entries_of table.now) (item_bits item.now) ≡ None }
    ensures { IfOk result (λ fault. fault ≡ item_width library.now (entries_of table.now) item.now) }
{
    let Item::Instance(instance) = item else {
        if clear {
            return Ok(None);
        }
        return check_item(alloc, table, BitTest::WrongWidth, item);
    };
    match kind_of(library, numbers, instance.cell.as_bytes()) {
        Some(kind) => check_links(
            alloc,
            library,
            table,
            instance,
            kind,
            instance.links.as_slice(),
        ),
        None => Ok(None),
    }
}

/// The first fault of width in the items. Where no bit is at fault (`bits_are_clear`), only instances are looked at.
pub fn find_width(
    alloc: Global,
    library: &Library,
    numbers: &IndexMap<&[u8], u32>,
    table: &IndexMap<&[u8], Declaration>,
    items: &[Item],
    clear: bool,
) -> Result<Option<LinkFault>, OutOfMemory>
    requires numbers { HasNumbers library.now numbers.now }
    requires clear { clear ≡ are_clear (entries_of table.now) items.now }
    ensures { IfOk result (λ fault. fault
        ≡ first_in (item_width library.now (entries_of table.now)) items.now) }
{
    for item in items {
        match check_width(alloc, library, numbers, table, item, clear)? {
            Some(fault) => return Ok(Some(fault)),
            None => {}
        }
    }
    Ok(None)
}
