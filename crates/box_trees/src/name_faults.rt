// Hidden names that are too long, or that are taken.
ghost use Rattle.std.specs.Prelude.{◌≡◌, ◌&&◌, ◌||◌, [], not, map, length, nat_lt, IfOk};
ghost use Rattle.std.specs.List.{flat_map};
ghost use Rattle.texts.specs.Repeated.{has_name};
ghost use Rattle.box_model.specs.Faults.{item_hidden, name_fault, used_names};
ghost use Rattle.box_trees.specs.HiddenNames.{told};

use crate::clashes::clashing_names;
use crate::hidden_names::{HiddenName, HiddenTable, hidden_names};
use crate::link_faults::note;
use crate::used_names::used_places;
use box_model::BoxFault;
use box_tables::{BoxTable, NamePlaces};
use indexmap::IndexSet;
use std::alloc::Global;
use texts::{OutOfMemory, Text};
use verilog_tree::Module;

// How long a name is at most.
const LONGEST: usize = 255;

// Whether a hidden name can't be, where it is new or came before.
fn is_bad(
    used: &NamePlaces<'_>,
    clashing: &NamePlaces<'_>,
    is_new: bool,
    hidden: &HiddenName,
) -> bool
    ensures { result ≡ (nat_lt 255 (length hidden.now.name)
        || (has_name clashing.now hidden.now.name
        || ((has_name used.now hidden.now.name && not hidden.now.joined) || not is_new))) }
{
    let name = hidden.name.as_bytes();
    name.len() > LONGEST || (clashing.has(name) || ((used.has(name) && !hidden.joined) || !is_new))
}

fn fault_of(alloc: Global, name: &[u8]) -> Result<BoxFault, OutOfMemory>
    ensures { IfOk result (λ fault. fault ≡ BoxFault.BoxName name.now) }
{
    Ok(BoxFault::BoxName {
        name: Text::from_bytes(alloc, name)?,
    })
}

fn first_fault(
    alloc: Global,
    used: &NamePlaces<'_>,
    clashing: &NamePlaces<'_>,
    hidden: &[HiddenName],
) -> Result<Option<BoxFault>, OutOfMemory>
    ensures { IfOk result (λ fault. fault
        ≡ name_fault used.now [] (map (told clashing.now) hidden.now)) }
{
    let mut before = IndexSet::new(alloc);
    for one in hidden {
        let name = one.name.as_bytes();
        let is_new = note(&mut before, name)?;
        if is_bad(used, clashing, is_new, one) {
            let fault = fault_of(alloc, name)?;
            return Ok(Some(fault));
        }
    }
    Ok(None)
}

/// The first hidden name that is too long, or that is taken; each name is looked up once.
pub fn find_name_fault(
    alloc: Global,
    table: &BoxTable<'_>,
    tree: &Module,
) -> Result<Option<BoxFault>, OutOfMemory>
    ensures { IfOk result (λ fault. fault ≡ name_fault (used_names tree.now) []
        (flat_map (item_hidden table.now tree.now) tree.now.items)) }
{
    let used = used_places(alloc, tree)?;
    let hidden = hidden_names(alloc, table, tree)?;
    let places = HiddenTable::of(alloc, hidden.as_slice())?;
    let clashing = clashing_names(alloc, &places, tree.ports.as_slice())?;
    let fault = first_fault(alloc, &used, &clashing, hidden.as_slice())?;
    Ok(fault)
}
