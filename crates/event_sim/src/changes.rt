// After an event what was before is brought up to date from the log alone, and the shown bits that may read anew are
// noted.

ghost use Rattle.std.specs.Prelude.{◌≡◌, ◌<◌, ◌*◌, ℕ, length, Some};
ghost use Rattle.netlist_settling.specs.Values.{value_at};
ghost use Rattle.event_parts.specs.QueuesLaws.{IsIn};
ghost use Rattle.event_sim.specs.Shown.{place_at};
ghost use Rattle.event_sim.specs.Sims.{HasRoom, IsNone};

use crate::places::place_at;
use event_parts::queues::TurnQueue;
use signal_values::Sig;

/// Empties the log: each net of it has as value before what it has now, and is noted where it is shown.
pub(crate) fn empty_log(
    values: &[Sig],
    places: &[Option<u32>],
    before: &mut [Sig],
    log: &mut TurnQueue,
    changed: &mut TurnQueue,
)
    requires long { length before.old ≡ length values.now }
    requires same { (net : ℕ) → (IsIn log.old net → ⊥) → value_at before.old net ≡ value_at values.now net }
    requires nets { (net : ℕ) → IsIn log.old net → net < length values.now }
    requires room { HasRoom places.now changed.old }
    ensures before { before.new ≡ values.now }
    ensures empty { IsNone log.new }
    ensures log { length log.new ≡ length log.old }
    ensures changed { length changed.new ≡ length changed.old }
    ensures kept { (place : ℕ) → IsIn changed.old place → IsIn changed.new place }
    ensures noted { (net place : ℕ) → IsIn log.old net → place_at places.now net ≡ Some place
        → IsIn changed.new place }
{
    let mut from = 0;
    for passed in 0..values.len() {
        let Some(net) = log.pop(from) else {
            return;
        };
        before[net] = values[net];
        note(places, net, changed);
        from = net + 1;
    }
}

// Notes a net, if it is shown.
fn note(places: &[Option<u32>], net: usize, changed: &mut TurnQueue)
    requires { HasRoom places.now changed.old }
    ensures long { length changed.new ≡ length changed.old }
    ensures kept { (place : ℕ) → IsIn changed.old place → IsIn changed.new place }
    ensures noted { (place : ℕ) → place_at places.now net ≡ Some place → IsIn changed.new place }
{
    if let Some(place) = place_at(places, net) {
        changed.push(place as usize);
    }
}
