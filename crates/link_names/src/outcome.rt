// The nets and cells of a module, where no fault stands in its text.
ghost use Rattle.std.specs.Prelude.{◌≡◌, ◌≢◌, None, Some, length, IfOk, IfErr};
ghost use Rattle.verilog_tree.specs.IsTree.{IsTree};
ghost use Rattle.link_model.specs.Nets.{declared_nets, declared_names, nets_in};
ghost use Rattle.link_model.specs.Faults.{text_fault, cells_in};
ghost use Rattle.link_model.specs.Fits.{FitCells};
ghost use Rattle.link_names.specs.CellNumbers.{HasNumbers};
ghost use Rattle.link_names.specs.Views.{net_views, entries_of};
ghost use Rattle.link_names.specs.Tests.{are_clear};
ghost use Rattle.link_names.specs.Outcomes.{head_fault, bit_fault, item_fault, IsResolved, IsOutcome};

use crate::bits::{BitTest, bits_are_clear, find_bit};
use crate::cell_numbers::numbers_of;
use crate::cells::cells_of;
use crate::declarations::{Declaration, declare};
use crate::instances::find_instance_fault;
use crate::names::find_name_twice;
use crate::net_bits::nets_of;
use crate::nets::{Net, gather_nets};
use crate::widths::find_width;
use cell_library::Library;
use indexmap::IndexMap;
use link_model::{ItemCell, LinkFault, NetBit, find_too_many};
use std::alloc::Global;
use texts::OutOfMemory;
use verilog_tree::{Item, Module};

/// The nets and the cells of a module, each at the place of its number. They borrow the module's names.
#[derive(Drop)]
pub struct Resolved<'a> {
    pub nets: Vec<NetBit<'a>>,
    pub cells: Vec<ItemCell<'a>>,
}

fn find_head_fault(alloc: Global, tree: &Module) -> Result<Option<LinkFault>, OutOfMemory>
    ensures { IfOk result (λ fault. fault ≡ head_fault tree.now) }
{
    match find_too_many(tree) {
        Some(fault) => return Ok(Some(fault)),
        None => {}
    }
    find_name_twice(alloc, tree)
}

fn find_bit_fault(
    alloc: Global,
    table: &IndexMap<&[u8], Declaration>,
    items: &[Item],
    clear: bool,
) -> Result<Option<LinkFault>, OutOfMemory>
    requires { clear ≡ are_clear (entries_of table.now) items.now }
    ensures { IfOk result (λ fault. fault ≡ bit_fault (entries_of table.now) items.now) }
{
    if clear {
        return Ok(None);
    }
    match find_bit(alloc, table, BitTest::NameUnknown, items)? {
        Some(fault) => return Ok(Some(fault)),
        None => {}
    }
    find_bit(alloc, table, BitTest::BitOutside, items)
}

fn find_item_fault(
    alloc: Global,
    library: &Library,
    numbers: &IndexMap<&[u8], u32>,
    table: &IndexMap<&[u8], Declaration>,
    items: &[Item],
) -> Result<Option<LinkFault>, OutOfMemory>
    requires numbers { HasNumbers library.now numbers.now }
    ensures { IfOk result (λ fault. fault ≡ item_fault library.now (entries_of table.now) items.now) }
{
    let clear = bits_are_clear(alloc, table, items)?;
    match find_bit_fault(alloc, table, items, clear)? {
        Some(fault) => return Ok(Some(fault)),
        None => {}
    }
    match find_instance_fault(alloc, library, numbers, items)? {
        Some(fault) => return Ok(Some(fault)),
        None => {}
    }
    find_width(alloc, library, numbers, table, items, clear)
}

fn build<'a>(
    alloc: Global,
    library: &Library,
    numbers: &IndexMap<&[u8], u32>,
    tree: &'a Module,
    declarations: &[Net<'a>],
    table: &IndexMap<&[u8], Declaration>,
) -> Result<Resolved<'a>, OutOfMemory>
    requires numbers { HasNumbers library.now numbers.now }
    requires tree { IsTree tree.now }
    requires nets { net_views declarations.now ≡ declared_nets tree.now }
    requires names { entries_of table.now ≡ declared_names tree.now }
    requires clear { text_fault library.now tree.now ≡ None }
    ensures { IfOk result (IsResolved library.now tree.now) }
{
    let nets = nets_of(alloc, declarations)?;
    let cells = cells_of(alloc, library, numbers, table, tree.items.as_slice())?;
    Ok(Resolved { nets, cells })
}

fn resolve_items<'a>(
    alloc: Global,
    library: &Library,
    tree: &'a Module,
    declarations: &[Net<'a>],
) -> Result<Result<Resolved<'a>, LinkFault>, OutOfMemory>
    requires tree { IsTree tree.now }
    requires nets { net_views declarations.now ≡ declared_nets tree.now }
    requires head { head_fault tree.now ≡ None }
    ensures { IfOk result (IsOutcome library.now tree.now) }
{
    let table = declare(alloc, declarations)?;
    let numbers = numbers_of(alloc, library)?;
    match find_item_fault(alloc, library, &numbers, &table, tree.items.as_slice())? {
        Some(fault) => Ok(Err(fault)),
        None => Ok(Ok(build(alloc, library, &numbers, tree, declarations, &table)?)),
    }
}

fn resolve_or_refuse<'a>(
    alloc: Global,
    library: &Library,
    tree: &'a Module,
) -> Result<Result<Resolved<'a>, LinkFault>, OutOfMemory>
    requires { IsTree tree.now }
    ensures { IfOk result (IsOutcome library.now tree.now) }
{
    match find_head_fault(alloc, tree)? {
        Some(fault) => return Ok(Err(fault)),
        None => {}
    }
    let declarations = gather_nets(alloc, tree)?;
    resolve_items(alloc, library, tree, &declarations)
}

/// The nets and cells of a module, or the first fault of counts, names, bits, instances and widths.
pub fn resolve<'a>(
    alloc: Global,
    library: &Library,
    tree: &'a Module,
) -> Result<Resolved<'a>, LinkFault>
    requires { IsTree tree.now }
    ensures clear { IfOk result (λ r. text_fault library.now tree.now ≡ None) }
    ensures nets { IfOk result (λ r. r.nets.items ≡ nets_in (declared_nets tree.now)) }
    ensures cells { IfOk result (λ r. r.cells.items ≡ cells_in library.now tree.now) }
    ensures fits { IfOk result (λ r. FitCells library.now (length r.nets.items) r.cells.items) }
    ensures fault { IfErr result (λ f. f ≢ LinkFault.OutOfMemory
        → text_fault library.now tree.now ≡ Some f) }
{
    match resolve_or_refuse(alloc, library, tree) {
        Ok(outcome) => outcome,
        Err(OutOfMemory) => Err(LinkFault::OutOfMemory),
    }
}
