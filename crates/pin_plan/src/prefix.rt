// Names that begin with the prefix.
ghost use Rattle.std.specs.Prelude.{◌≡◌, IfOk};
ghost use Rattle.texts.specs.First.{first_in};
ghost use Rattle.texts.specs.Repeated.{texts};
ghost use Rattle.plan_fitting.specs.Fits as fits;
ghost use Rattle.pin_plan.specs.Names.{prefix_fault_among};

use crate::names::tap_names;
use plan_fitting::FitFault;
use plan_texts::Plan;
use std::alloc::Global;
use texts::{OutOfMemory, Text};

// The first of the names that begins with the prefix.
fn find_begun(
    alloc: Global,
    prefix: &[u8],
    names: &[&[u8]],
) -> Result<Option<FitFault>, OutOfMemory>
    ensures { IfOk result (λ found. found ≡ first_in (fits.begun_fault prefix.now) (texts names.now)) }
{
    for name in names {
        if name.starts_with(prefix) {
            return Ok(Some(FitFault::PrefixTaken {
                word: Text::from_bytes(alloc, name)?,
            }));
        }
    }
    Ok(None)
}

/// The first name that begins with the prefix, where these are the names of the netlist's ports, and those of its nets,
/// gates and instances.
pub fn find_prefix_fault(
    alloc: Global,
    plan: &Plan,
    ports: &[&[u8]],
    inner: &[&[u8]],
) -> Result<Option<FitFault>, OutOfMemory>
    ensures { IfOk result (λ found. found ≡ prefix_fault_among plan.now (texts ports.now)
        (texts inner.now)) }
{
    let prefix = plan.prefix.as_bytes();
    match find_begun(alloc, prefix, ports)? {
        Some(fault) => return Ok(Some(fault)),
        None => {}
    }
    match find_begun(alloc, prefix, inner)? {
        Some(fault) => return Ok(Some(fault)),
        None => {}
    }
    find_begun(alloc, prefix, &tap_names(plan))
}
