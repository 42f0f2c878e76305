// A linked netlist at work.

ghost use Rattle.std.specs.Prelude.{◌≡◌, ◌≢◌, ◌≤◌, ◌+◌, ◌<◌, ◌↔◌, ℕ, true, false, length, option_map, slice_get, Some, IfOk, IfSome, IsSome, IsTrue, MatchOption};
ghost use Rattle.netlist_model.specs.declared.NetId.{NetId};
ghost use Rattle.netlist_model.specs.Cones.{IsControlPort};
ghost use Rattle.netlist_model.specs.Runs.{IsKnownPin, IsStart, reading_at};
ghost use Rattle.netlist_settling.specs.Values.{value_at};
ghost use Rattle.netlist_meaning.specs.Pins.{ArePinsOf, net_of, outside};
ghost use Rattle.netlist_meaning.specs.States.{IsStateOf, held};
ghost use Rattle.event_parts.specs.QueuesLaws.{IsEmpty, IsIn, Pops};
ghost use Rattle.event_laws.specs.Counts.{touched_count};
ghost use Rattle.event_sim.specs.Shown.{shown_nets};

use crate::events::take_event;
use crate::places::places_of;
use crate::shown::nets_of;
use event_parts::counted_cells::Steps;
use event_parts::queues::TurnQueue;
use event_turns::{Circuit, keep_drives, reading};
use netlist_link::Linked;
use netlist_meaning::{Event, Pins, State, cell_bound, controls_of, directions_of};
use netlist_model::{NetId, PinBit, width_of};
use signal_values::{PinSig, Sig};
use std::alloc::Global;
use std::marker::Model;
use std::sync::ledger::Ledger;
use texts::OutOfMemory;

/// Takes a linked netlist through a run: a start, and then events. All memory is taken when it is made.
#[derive(Drop)]
pub struct EventSim<'a> {
    linked: &'a Linked,
    started: bool,
    circuit: Circuit<'a>,
    // Of each net whether it is a control port, and its place among the shown bits.
    controls: Vec<bool>,
    places: Vec<Option<u32>>,
    // What is outside the pin of each net; the nets before an event and as they are; what each cell holds; what each
    // three-state gate gives its net.
    pins: Vec<PinSig>,
    before: Vec<Sig>,
    values: Vec<Sig>,
    state: Vec<Sig>,
    drives: Vec<PinSig>,
    // The turns to come and the nets that may read anew, both empty between events; and the shown bits that may.
    queue: TurnQueue,
    log: TurnQueue,
    changed: TurnQueue,
}

impl<'a> Model for EventSim<'a> {
    ghost use Rattle.std.specs.Prelude.{◌≡◌, true};
    ghost use Rattle.event_sim.specs.Sims.{EventView, AreTables, HasPlaces, IsNone, IsResting};

    ghost Value = { EventView };

    ghost view = { λ s. record {
      linked = s.linked.now;
      started = s.started;
      moment = record { pins = s.pins.items; state = s.state.items; values = s.values.items };
      changed = s.changed;
    } };

    ghost invariant = { λ s. record {
      tables : AreTables s.linked.now s.circuit s.controls.items s.places.items s.changed;
      rooms : HasPlaces s.linked.now s.circuit s.pins.items s.before.items s.values.items s.state.items s.drives.items s.queue s.log;
      rest : s.started ≡ true → IsResting s.linked.now.arena.lists s.pins.items s.before.items s.values.items s.state.items s.drives.items;
      queue_is : IsNone s.queue;
      log_is : IsNone s.log;
    } };
}

impl<'a> EventSim<'a> {
    ghost use Rattle.netlist_meaning.specs.Events.{IsLegalEvent, IsEventStep};
    ghost use Rattle.netlist_meaning.specs.Sims.{moment_of};

    /// Makes the tables of the netlist, in time linear in its ports, nets, cells and operands.
    pub fn new(alloc: Global, linked: &'a Linked) -> Result<EventSim<'a>, OutOfMemory>
        ensures linked { IfOk result (λ sim. sim.linked ≡ linked.now) }
        ensures idle { IfOk result (λ sim. sim.started ≡ false) }
    {
        let netlist = linked.netlist();
        netlist.is_laid_out();
        let count = netlist.net_count();
        let sides = directions_of(alloc, netlist)?;
        let circuit = Circuit::new(alloc, netlist, linked.order(), sides)?;
        let controls = controls_of(alloc, linked)?;
        let nets = nets_of(alloc, netlist)?;
        if nets.len() > u32::MAX as usize {
            return Err(OutOfMemory);
        }
        let places = places_of(alloc, nets.as_slice(), count as usize)?;
        let queue = TurnQueue::new(alloc, circuit.turn_bound())?;
        let log = TurnQueue::new(alloc, count)?;
        let changed = TurnQueue::new(alloc, nets.len() as u32)?;
        let pins = vec![in alloc; PinSig::Unknown; count as usize]?;
        let before = vec![in alloc; Sig::Unknown; count as usize]?;
        let values = vec![in alloc; Sig::Unknown; count as usize]?;
        let state = vec![in alloc; Sig::Unknown; cell_bound(linked.order())]?;
        let drives = vec![in alloc; PinSig::Unknown; count as usize]?;
        Ok(EventSim {
            linked,
            started: false,
            circuit,
            controls,
            places,
            pins,
            before,
            values,
            state,
            drives,
            queue,
            log,
            changed,
        })
    }

    /// Begins a run, or begins anew.
    pub fn start(&mut self, pins: &Pins, state: &State)
        requires pins { ArePinsOf self.old.linked.arena.lists pins.now }
        requires state { IsStateOf self.old.linked state.now }
        requires controls { (net : ℕ) → IsControlPort self.old.linked.arena.lists net
            → IsKnownPin (outside pins.now net) }
        ensures linked { self.new.linked ≡ self.old.linked }
        ensures started { self.new.started ≡ true }
        ensures pins { self.new.moment.pins ≡ pins.now.values }
        ensures start { IsStart self.old.linked.arena.lists (held state.now) (moment_of self.new.moment) }
    {
        self.pins.as_mut_slice().copy_from_slice(pins.values());
        netlist_settling::start(
            self.linked.netlist(),
            self.linked.order(),
            self.circuit.sides(),
            self.pins.as_slice(),
            state.values(),
            self.state.as_mut_slice(),
            self.before.as_mut_slice(),
            self.values.as_mut_slice(),
        );
        self.before
            .as_mut_slice()
            .copy_from_slice(self.values.as_slice());
        keep_drives(
            &self.circuit,
            self.values.as_slice(),
            self.drives.as_mut_slice(),
        );
        self.started = true;
    }

    // The net of a pin, if there is such a pin.
    fn net(&self, pin: PinBit) -> Option<NetId>
        ensures value { result ≡ net_of self.now.linked.arena.lists.ports pin }
        ensures below { IfSome result (λ net. net.0 < length self.now.linked.arena.lists.nets) }
    {
        let netlist = self.linked.netlist();
        netlist.is_laid_out();
        if pin.port.0 >= netlist.port_count() {
            return None;
        }
        if u64::from(pin.bit) >= width_of(netlist.port_range(pin.port)) {
            return None;
        }
        Some(netlist.pin_net(pin))
    }

    /// Whether the event gives an input or inout bit a value that it may take.
    pub fn is_legal(&self, event: Event) -> bool
        ensures { IsTrue result ↔ IsLegalEvent self.now.linked.arena.lists event }
    {
        match self.net(event.pin) {
            Some(net) => netlist_settling::is_legal(
                self.linked.netlist(),
                self.circuit.sides(),
                self.controls.as_slice(),
                net,
                event.value,
            ),
            None => false,
        }
    }

    /// Steps by an event; and counts the evaluations of gates, at most as many as gates have an operand on a net that
    /// differs.
    pub fn apply<L: Ledger>(&mut self, event: Event, steps: &mut Steps<L>)
        requires started { self.old.started ≡ true }
        requires legal { IsLegalEvent self.old.linked.arena.lists event }
        ensures linked { self.new.linked ≡ self.old.linked }
        ensures started { self.new.started ≡ true }
        ensures step { IsEventStep self.old.linked.arena.lists event (moment_of self.old.moment)
            (moment_of self.new.moment) }
        ensures few { steps.new ≤ steps.old + touched_count self.old.linked.arena.lists
            (value_at self.old.moment.values) (value_at self.new.moment.values) }
        ensures kept { (place : ℕ) → IsIn self.old.changed place → IsIn self.new.changed place }
        ensures changed { (place : ℕ) (net : NetId)
            → slice_get (shown_nets self.old.linked.arena.lists) place ≡ Some net
            → reading_at self.old.linked.arena.lists (moment_of self.old.moment) net.0
            ≢ reading_at self.old.linked.arena.lists (moment_of self.new.moment) net.0
            → IsIn self.new.changed place }
    {
        let net = self.linked.netlist().pin_net(event.pin);
        take_event(
            &self.circuit,
            self.places.as_slice(),
            net,
            event.value,
            self.pins.as_mut_slice(),
            self.before.as_mut_slice(),
            self.values.as_mut_slice(),
            self.state.as_mut_slice(),
            self.drives.as_mut_slice(),
            &mut self.queue,
            &mut self.log,
            &mut self.changed,
            steps,
        );
    }

    /// What the bit of a port reads. An input reads what is outside.
    pub fn reading(&self, pin: PinBit) -> PinSig
        requires started { self.now.started ≡ true }
        requires pin { IsSome (net_of self.now.linked.arena.lists.ports pin) }
        ensures { option_map (λ net. reading_at self.now.linked.arena.lists
            (moment_of self.now.moment) net.0)
            (net_of self.now.linked.arena.lists.ports pin) ≡ Some result }
    {
        let net = self.linked.netlist().pin_net(pin);
        reading(
            &self.circuit,
            net,
            self.pins.as_slice(),
            self.values.as_slice(),
            self.drives.as_slice(),
        )
    }

    /// Takes the first of the shown bits that may read anew, by its place.
    pub fn take_changed(&mut self) -> Option<usize>
        ensures linked { self.new.linked ≡ self.old.linked }
        ensures started { self.new.started ≡ self.old.started }
        ensures moment { self.new.moment ≡ self.old.moment }
        ensures place { MatchOption result (IsEmpty self.old.changed self.new.changed)
            (λ place. Pops place self.old.changed self.new.changed) }
    {
        self.changed.pop(0)
    }
}
