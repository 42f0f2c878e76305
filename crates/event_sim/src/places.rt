// The place of each shown net among the shown bits.

ghost use Rattle.std.specs.Prelude.{◌≡◌, ◌<◌, ◌^◌, ℕ, length, slice_get, IfOk, Some};
ghost use Rattle.netlist_model.specs.declared.NetId.{NetId};
ghost use Rattle.event_sim.specs.Shown.{ArePlaces, place_at};

use netlist_model::NetId;
use std::alloc::Global;
use texts::OutOfMemory;

/// The places of these nets, for so many nets.
pub(crate) fn places_of(
    alloc: Global,
    nets: &[NetId],
    count: usize,
) -> Result<Vec<Option<u32>>, OutOfMemory>
    requires few { length nets.now < 2 ^ 32 }
    requires below { (place : ℕ) (net : NetId) → slice_get nets.now place ≡ Some net → net.0 < count }
    requires once { (i j : ℕ) (net : NetId) → slice_get nets.now i ≡ Some net
        → slice_get nets.now j ≡ Some net → i ≡ j }
    ensures { IfOk result (λ places. ArePlaces nets.now places.items) }
{
    let mut places = vec![in alloc; None; count]?;
    for place in 0..nets.len() {
        places[nets[place].0 as usize] = Some(place as u32);
    }
    Ok(places)
}

/// The place of a net, if it has one.
pub(crate) fn place_at(places: &[Option<u32>], net: usize) -> Option<u32>
    ensures { result ≡ place_at places.now net }
{
    match places.get(net) {
        Some(place) => *place,
        None => None,
    }
}
