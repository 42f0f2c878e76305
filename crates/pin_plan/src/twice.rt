// Bits of ports and physical pins that stand twice.
ghost use Rattle.std.specs.Prelude.{◌≡◌, ◌++◌, ◌∷◌, [], List, true, not, IfOk, OnOk, map};
ghost use Rattle.std.specs.List.{list_any};
ghost use Rattle.plan_fitting.specs.Fits as fits;
ghost use Rattle.pin_plan.specs.Taken.{key_of_taken, taken_view};

use crate::bits::bit_key;
use crate::keys::TakenKey;
use crate::pins::PinAt;
use bsdl_lexicon::NameKey;
use indexmap::IndexSet;
use netlist_model::PinBit;
use plan_fitting::FitFault;
use plan_texts::{PinLine, Plan, TapLine};
use std::alloc::Global;
use texts::{OutOfMemory, Text};

/// What a line takes: a physical pin, or a bit of a port with the word that names it.
#[derive(Clone, Copy)]
enum Taken<'a> {
    PhysicalPin(&'a [u8]),
    PortBit(PinBit, &'a [u8]),
}

impl<'a> Taken<'a> {
    // Two of one key are the same.
    fn key(self) -> TakenKey<'a>
        ensures { result ≡ key_of_taken self.entry }
    {
        match self {
            Taken::PhysicalPin(pin) => TakenKey::PhysicalPin(NameKey(pin)),
            Taken::PortBit(bit, _) => TakenKey::PortBit(bit_key(bit)),
        }
    }

    fn word(self) -> &'a [u8]
        ensures { result.now ≡ fits.told (taken_view self.entry) }
    {
        match self {
            Taken::PhysicalPin(pin) => pin,
            Taken::PortBit(_, word) => word,
        }
    }
}

fn take_lines<'a>(taken: &mut Vec<Taken<'a>>, lines: &'a [TapLine]) -> Result<(), OutOfMemory>
    ensures { OnOk result (map taken_view taken.new.items ≡ map taken_view taken.old.items
        ++ map fits.taken_alone lines.now) }
{
    for line in lines {
        taken.push(Taken::PhysicalPin(line.pin.as_bytes()))?;
    }
    Ok(())
}

fn take_tap<'a>(taken: &mut Vec<Taken<'a>>, plan: &'a Plan) -> Result<(), OutOfMemory>
    ensures { OnOk result (map taken_view taken.new.items ≡ map taken_view taken.old.items
        ++ map fits.taken_alone (fits.tap_lines plan.now)) }
{
    taken.push(Taken::PhysicalPin(plan.tck.pin.as_bytes()))?;
    taken.push(Taken::PhysicalPin(plan.tms.pin.as_bytes()))?;
    taken.push(Taken::PhysicalPin(plan.tdi.pin.as_bytes()))?;
    taken.push(Taken::PhysicalPin(plan.tdo.pin.as_bytes()))?;
    taken.push(Taken::PhysicalPin(plan.trst.pin.as_bytes()))?;
    Ok(())
}

fn take_pins<'a>(
    taken: &mut Vec<Taken<'a>>,
    lines: &'a [PinLine],
    pins: &[PinAt],
) -> Result<(), OutOfMemory>
    ensures { OnOk result (map taken_view taken.new.items ≡ map taken_view taken.old.items
        ++ fits.taken_by lines.now pins.now) }
{
    for (line, one) in lines.iter().zip(pins) {
        taken.push(Taken::PortBit(one.pin, line.port.as_bytes()))?;
        taken.push(Taken::PhysicalPin(line.pin.as_bytes()))?;
    }
    Ok(())
}

// What all lines take, in their order.
fn all_taken<'a>(
    alloc: Global,
    plan: &'a Plan,
    pins: &[PinAt],
) -> Result<Vec<Taken<'a>>, OutOfMemory>
    ensures { IfOk result (λ taken. map taken_view taken.items ≡ fits.all_taken plan.now pins.now) }
{
    let mut taken = Vec::new(alloc);
    take_tap(&mut taken, plan)?;
    take_pins(&mut taken, plan.pins.as_slice(), pins)?;
    take_lines(&mut taken, plan.linkage.as_slice())?;
    Ok(taken)
}

// Notes what a line takes, and says whether it is new; `taken` is what was noted so far.
fn note<'a>(before: &mut IndexSet<TakenKey<'a>>, one: Taken<'a>) -> Result<bool, OutOfMemory>
    ensures fresh { IfOk result (λ fresh. (taken : List Taken) → before.old.keys ≡ map key_of_taken taken
        → fresh ≡ not (list_any (fits.same_taken (taken_view one.entry)) (map taken_view taken))) }
    ensures added { IfOk result (λ fresh. (taken : List Taken) → before.old.keys ≡ map key_of_taken taken
        → fresh ≡ true
        → before.new.keys ≡ map key_of_taken (taken ++ one.entry ∷ [])) }
{
    Ok(before.insert(one.key())?)
}

// The first that came before.
fn first_twice<'a>(alloc: Global, taken: &[Taken<'a>]) -> Result<Option<FitFault>, OutOfMemory>
    ensures { IfOk result (λ found. found ≡ fits.twice_after [] (map taken_view taken.now)) }
{
    let mut before = IndexSet::new(alloc);
    for one in taken {
        if !note(&mut before, *one)? {
            return Ok(Some(FitFault::PlanTwice {
                word: Text::from_bytes(alloc, one.word())?,
            }));
        }
    }
    Ok(None)
}

/// The first bit of a port or physical pin that stands twice.
pub fn find_twice(
    alloc: Global,
    plan: &Plan,
    pins: &[PinAt],
) -> Result<Option<FitFault>, OutOfMemory>
    ensures { IfOk result (λ found. found ≡ fits.twice_fault plan.now pins.now) }
{
    let taken = all_taken(alloc, plan, pins)?;
    first_twice(alloc, &taken)
}
