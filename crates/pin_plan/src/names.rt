// Names that can't stand in the device.
ghost use Rattle.std.specs.Prelude.{◌≡◌, ◌++◌, ◌∷◌, [], true, false, not, IfOk, None};
ghost use Rattle.std.specs.List.{list_any};
ghost use Rattle.bsdl_lexicon.specs.Names.{is_same_name};
ghost use Rattle.texts.specs.Repeated.{has_name, texts};
ghost use Rattle.plan_fitting.specs.Fits as fits;
ghost use Rattle.bsdl_lexicon.specs.NameKeys.{names_in};
ghost use Rattle.pin_plan.specs.Names.{name_fault_among};

use bsdl_device::runs::runs::is_identifier;
use bsdl_lexicon::{NameKey, is_reserved};
use indexmap::IndexSet;
use plan_fitting::FitFault;
use plan_texts::{Plan, TapLine};
use std::alloc::Global;
use texts::{OutOfMemory, Text};

fn has_name(names: &[&[u8]], name: &[u8]) -> bool
    ensures { result ≡ has_name (texts names.now) name.now }
{
    for other in names {
        if name == *other {
            return true;
        }
    }
    false
}

// Adds a name to those before it, and says whether it is new.
fn note<'a>(before: &mut IndexSet<NameKey<'a>>, name: &'a [u8]) -> Result<bool, OutOfMemory>
    ensures fresh { IfOk result (λ fresh. fresh
        ≡ not (list_any (is_same_name name.now) (names_in before.old.keys))) }
    ensures added { IfOk result (λ fresh. fresh ≡ true
        → names_in before.new.keys ≡ names_in before.old.keys ++ name.now ∷ []) }
{
    Ok(before.insert(NameKey(name))?)
}

// Adds a name to those before it, and says whether it can't stand behind them.
fn is_barred<'a>(
    before: &mut IndexSet<NameKey<'a>>,
    others: &[&[u8]],
    name: &'a [u8],
) -> Result<bool, OutOfMemory>
    ensures barred { IfOk result (λ barred. barred
        ≡ fits.is_barred (texts others.now) (names_in before.old.keys) name.now) }
    ensures added { IfOk result (λ barred. barred ≡ false
        → names_in before.new.keys ≡ names_in before.old.keys ++ name.now ∷ []) }
{
    let fresh = note(before, name)?;
    Ok(!is_identifier(name) || is_reserved(name) || !fresh || has_name(others, name))
}

// The first of the names that can't stand behind those before it; they are added to these.
fn find_barred<'a>(
    alloc: Global,
    before: &mut IndexSet<NameKey<'a>>,
    others: &[&[u8]],
    names: &[&'a [u8]],
) -> Result<Option<FitFault>, OutOfMemory>
    ensures found { IfOk result (λ found. found
        ≡ fits.barred_after (texts others.now) (names_in before.old.keys) (texts names.now)) }
    ensures added { IfOk result (λ found. found ≡ None
        → names_in before.new.keys ≡ names_in before.old.keys ++ texts names.now) }
{
    for name in names {
        let name = *name;
        if is_barred(before, others, name)? {
            return Ok(Some(FitFault::PlanName {
                word: Text::from_bytes(alloc, name)?,
            }));
        }
    }
    Ok(None)
}

/// The names of the test access port.
pub fn tap_names(plan: &Plan) -> [&[u8]; 5]
    ensures { texts result ≡ fits.names_of (fits.tap_lines plan.now) }
{
    [
        plan.tck.name.as_bytes(),
        plan.tms.name.as_bytes(),
        plan.tdi.name.as_bytes(),
        plan.tdo.name.as_bytes(),
        plan.trst.name.as_bytes(),
    ]
}

fn line_names<'a>(alloc: Global, lines: &'a [TapLine]) -> Result<Vec<&'a [u8]>, OutOfMemory>
    ensures { IfOk result (λ names. texts names.items ≡ fits.names_of lines.now) }
{
    let mut names = Vec::new(alloc);
    for line in lines {
        names.push(line.name.as_bytes())?;
    }
    Ok(names)
}

/// The first name that can't stand in the device, where these are the names of the netlist's ports, and those of its
/// nets, gates and instances.
pub fn find_name_fault<'a>(
    alloc: Global,
    plan: &'a Plan,
    ports: &[&'a [u8]],
    inner: &[&'a [u8]],
) -> Result<Option<FitFault>, OutOfMemory>
    ensures { IfOk result (λ found. found ≡ name_fault_among plan.now (texts ports.now)
        (texts inner.now)) }
{
    let own = [plan.entity.as_bytes(), plan.package.as_bytes()];
    let mut before = IndexSet::new(alloc);
    match find_barred(alloc, &mut before, &[], &own)? {
        Some(fault) => return Ok(Some(fault)),
        None => {}
    }
    match find_barred(alloc, &mut before, &[], ports)? {
        Some(fault) => return Ok(Some(fault)),
        None => {}
    }
    match find_barred(alloc, &mut before, inner, &tap_names(plan))? {
        Some(fault) => return Ok(Some(fault)),
        None => {}
    }
    let linkage = line_names(alloc, plan.linkage.as_slice())?;
    find_barred(alloc, &mut before, &[], &linkage)
}
