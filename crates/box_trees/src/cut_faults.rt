// Cuts of no flip-flop.
ghost use Rattle.std.specs.Prelude.{◌≡◌, ◌++◌, ◌∷◌, [], IfOk, OnOk};
ghost use Rattle.std.specs.List.{filter_map};
ghost use Rattle.texts.specs.Repeated.{bytes_of, texts};
ghost use Rattle.link_model.specs.Lists.{first_in};
ghost use Rattle.box_model.specs.Faults.{unknown_cut};
ghost use Rattle.box_trees.specs.Cuts.{flop_name, unknown_in};

use box_model::BoxFault;
use box_tables::{BoxTable, NamePlaces};
use std::alloc::Global;
use texts::{OutOfMemory, Text};
use verilog_tree::{Item, Module};

// The name of an instance of a flip-flop.
fn name_of_flop<'a>(table: &BoxTable<'_>, item: &'a Item) -> Option<&'a [u8]>
    ensures { bytes_of result ≡ flop_name table.now item.now }
{
    match item {
        Item::Gate(_) | Item::Assign { .. } => None,
        Item::Instance(instance) => {
            if table.is_flop(instance.cell.as_bytes()) {
                Some(instance.name.as_bytes())
            } else {
                None
            }
        }
    }
}

fn add_flop<'a>(
    table: &BoxTable<'_>,
    names: &mut Vec<&'a [u8]>,
    item: &'a Item,
) -> Result<(), OutOfMemory>
    ensures { OnOk result (texts names.new.items ≡ texts names.old.items ++ filter_map (flop_name table.now) (item.now ∷ [])) }
{
    match name_of_flop(table, item) {
        None => {}
        Some(name) => names.push(name)?,
    }
    Ok(())
}

// The names of the instances of flip-flops.
fn flop_places<'a>(
    alloc: Global,
    table: &BoxTable<'_>,
    items: &'a [Item],
) -> Result<NamePlaces<'a>, OutOfMemory>
    ensures { IfOk result (λ flops. flops ≡ filter_map (flop_name table.now) items.now) }
{
    let mut names = Vec::new(alloc);
    for item in items {
        add_flop(table, &mut names, item)?;
    }
    let flops = NamePlaces::of(alloc, names)?;
    Ok(flops)
}

fn cut_fault(
    alloc: Global,
    flops: &NamePlaces<'_>,
    cut: &[u8],
) -> Result<Option<BoxFault>, OutOfMemory>
    ensures { IfOk result (λ fault. fault ≡ unknown_in flops.now cut.now) }
{
    if flops.has(cut) {
        Ok(None)
    } else {
        Ok(Some(BoxFault::BoxUnknown {
            instance: Text::from_bytes(alloc, cut)?,
        }))
    }
}

fn first_unknown(
    alloc: Global,
    flops: &NamePlaces<'_>,
    cuts: &[Text],
) -> Result<Option<BoxFault>, OutOfMemory>
    ensures { IfOk result (λ fault. fault ≡ first_in (unknown_in flops.now) cuts.now) }
{
    for cut in cuts {
        match cut_fault(alloc, flops, cut.as_bytes())? {
            Some(fault) => return Ok(Some(fault)),
            None => {}
        }
    }
    Ok(None)
}

/// The first cut of a library that is of no flip-flop of the module.
pub fn find_unknown_cut(
    alloc: Global,
    table: &BoxTable<'_>,
    tree: &Module,
) -> Result<Option<BoxFault>, OutOfMemory>
    ensures { IfOk result (λ fault. fault ≡ first_in (unknown_cut table.now tree.now) table.now.cuts) }
{
    let flops = flop_places(alloc, table, tree.items.as_slice())?;
    let fault = first_unknown(alloc, &flops, table.cuts())?;
    Ok(fault)
}
