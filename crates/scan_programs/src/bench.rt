// The test logic of a device under the cycles of its program.

ghost use Rattle.std.specs.Prelude.{◌≡◌, ◌∷◌, [], true, false, IfOk, OnOk};
ghost use Rattle.bsdl_device.specs.IsDevice.{IsDevice};
ghost use Rattle.scan_programs.specs.Pins as pins;
ghost use Rattle.scan_programs.specs.Program as definition;
ghost use Rattle.scan_programs.specs.Runs.{adds, with_machine, with_tms, with_tdi, after_clock, risen, fallen};

use crate::cells::{bit, captured};
use crate::clocks::Clock;
use crate::lines::{put_pins, put_set, put_set_if, put_starts, put_tdo};
use crate::pins::{Reader, readers};
use bsdl_device::Device;
use scan_vectors::Line;
use signal_values::Sig;
use std::alloc::Global;
use std::marker::Model;
use tap_machine::Machine;
use test_logic::TapState;
use texts::{OutOfMemory, Row};

/// The test logic of a device, the levels of TMS and TDI, and the lines so far.
#[derive(Drop)]
pub struct Bench<'a> {
    alloc: Global,
    device: &'a Device,
    readers: Vec<Reader>,
    machine: Machine,
    // A bit for each cell, for rising edges on which nothing is captured.
    idle: Vec<Sig>,
    tms: bool,
    tdi: bool,
    list: Row<Line>,
}

impl<'a> Model for Bench<'a> {
    ghost use Rattle.scan_programs.specs.Runs.{BenchView, IsSteady};

    ghost Value = { BenchView };

    ghost view = { λ b. record { device = b.device.now; bench = record { tms = b.tms; tdi = b.tdi; machine = b.machine.holds }; list = b.list } };

    ghost invariant = { λ b. IsSteady b.device.now b.machine.logic b.readers.items b.idle.items };
}

impl<'a> Bench<'a> {
    /// In reset, with TMS at 1 and no lines.
    pub fn new(alloc: Global, device: &'a Device) -> Result<Bench<'a>, OutOfMemory>
        requires { IsDevice device.now }
        ensures { IfOk result (λ b. b ≡ record {
          device = device.now;
          bench = definition.first_bench device.now;
          list = [];
        }) }
    {
        Ok(Bench {
            alloc,
            device,
            readers: readers(alloc, device)?,
            machine: Machine::new(alloc, device)?,
            idle: vec![in alloc; Sig::Zero; device.cells.len()]?,
            tms: true,
            tdi: false,
            list: Row::new(alloc),
        })
    }

    /// The starts of all inputs and inouts.
    pub fn start(&mut self) -> Result<(), OutOfMemory>
        ensures { OnOk result (self.new ≡ adds self.old (pins.starts self.old.device)) }
    {
        put_starts(self.alloc, &mut self.list, self.device)
    }

    // An input of the test access port, by its place, is set.
    fn set(&mut self, place: u32, level: bool) -> Result<(), OutOfMemory>
        ensures { OnOk result (self.new ≡ adds self.old
            (definition.set_line self.old.device place level ∷ [])) }
    {
        put_set(self.alloc, &mut self.list, self.device, place, level)
    }

    /// TRST is set to 1.
    pub fn end_reset(&mut self) -> Result<(), OutOfMemory>
        ensures { OnOk result (self.new ≡ adds self.old
            (definition.set_line self.old.device self.old.device.trst true ∷ [])) }
    {
        let trst = self.device.trst;
        self.set(trst, true)
    }

    /// TRST is set to 0.
    pub fn reset(&mut self) -> Result<(), OutOfMemory>
        ensures { OnOk result (self.new ≡ adds (with_machine self.old
            (definition.in_reset self.old.device))
            (definition.set_line self.old.device self.old.device.trst false ∷ [])) }
    {
        let trst = self.device.trst;
        self.machine.reset();
        self.set(trst, false)
    }

    fn look_at_tdo(&mut self) -> Result<(), OutOfMemory>
        ensures { OnOk result (self.new ≡ adds self.old
            (definition.tdo_lines self.old.device self.old.bench.machine)) }
    {
        put_tdo(self.alloc, &mut self.list, self.device, &self.machine)
    }

    fn look_at_pins(&mut self) -> Result<(), OutOfMemory>
        ensures { OnOk result (self.new ≡ adds self.old
            (definition.pin_lines self.old.device self.old.bench.machine)) }
    {
        put_pins(
            self.alloc,
            &mut self.list,
            self.device,
            self.readers.as_slice(),
            &self.machine,
        )
    }

    /// TDO and the outputs and inouts are looked at.
    pub fn look(&mut self) -> Result<(), OutOfMemory>
        ensures { OnOk result (self.new ≡ adds self.old
            (definition.look self.old.device self.old.bench.machine)) }
    {
        self.look_at_tdo()?;
        self.look_at_pins()
    }

    fn is_in_update(&self) -> bool
        ensures { result ≡ definition.is_update self.now.bench.machine.state }
    {
        matches!(
            self.machine.state(),
            TapState::UpdateDr | TapState::UpdateIr
        )
    }

    fn look_after(&mut self) -> Result<(), OutOfMemory>
        ensures { OnOk result (self.new ≡ adds self.old
            (definition.look_after self.old.device self.old.bench.machine)) }
    {
        self.look_at_tdo()?;
        if self.is_in_update() {
            self.look_at_pins()?;
        }
        Ok(())
    }

    fn set_tms(&mut self, level: bool) -> Result<(), OutOfMemory>
        ensures { OnOk result (self.new ≡ adds (with_tms self.old level)
            (definition.set_if self.old.device self.old.device.tms self.old.bench.tms level)) }
    {
        let (place, before) = (self.device.tms, self.tms);
        self.tms = level;
        put_set_if(
            self.alloc,
            &mut self.list,
            self.device,
            place,
            before,
            level,
        )
    }

    fn set_tdi(&mut self, level: bool) -> Result<(), OutOfMemory>
        ensures { OnOk result (self.new ≡ adds (with_tdi self.old level)
            (definition.set_if self.old.device self.old.device.tdi self.old.bench.tdi level)) }
    {
        let (place, before) = (self.device.tdi, self.tdi);
        self.tdi = level;
        put_set_if(
            self.alloc,
            &mut self.list,
            self.device,
            place,
            before,
            level,
        )
    }

    // What the cells capture matters in Capture-DR alone.
    fn rise(&mut self, clock: Clock) -> Result<(), OutOfMemory>
        ensures { OnOk result (self.new ≡ with_machine self.old
            (risen self.old.device clock self.old.bench.machine)) }
    {
        let tdi = bit(clock.tdi);
        match self.machine.state() {
            TapState::CaptureDr => {
                let bits = captured(self.alloc, self.device, &self.machine)?;
                self.machine.rise(clock.tms, tdi, bits.as_slice());
            }
            _ => self.machine.rise(clock.tms, tdi, self.idle.as_slice()),
        }
        Ok(())
    }

    fn fall(&mut self)
        ensures { self.new ≡ with_machine self.old (fallen self.old.device self.old.bench.machine) }
    {
        self.machine.fall();
    }

    /// A cycle of TCK.
    #[tactic(auto, unfolding(crate::specs::Runs::after_clock))]
    pub fn clock(&mut self, clock: Clock) -> Result<(), OutOfMemory>
        ensures { OnOk result (self.new ≡ after_clock clock self.old) }
    {
        let tck = self.device.tck;
        self.set_tms(clock.tms)?;
        self.set_tdi(clock.tdi)?;
        self.set(tck, true)?;
        self.rise(clock)?;
        self.set(tck, false)?;
        self.fall();
        self.look_after()
    }

    /// The lines.
    pub fn into_list(self) -> Row<Line>
        ensures { result ≡ self.entry.list }
    {
        let Bench { list, .. } = self;
        list
    }
}
