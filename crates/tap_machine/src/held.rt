// What the test logic holds, from reset through edges of TCK.

ghost use Rattle.std.specs.Prelude.{◌≡◌, length, IfOk};
ghost use Rattle.test_logic.specs.Instructions as instructions;
ghost use Rattle.test_logic.specs.Machine as definition;
ghost use Rattle.tap_machine.specs.Views.{IsLogic, IsHeld, logic_of, holds_of, latched_and_updated};

use crate::controller::{act, clear, first_bit, ir_action, state_after, tdo_after};
use crate::data_registers::{DataRegisters, update};
use crate::logic::Logic;
use crate::opcodes::instruction_of;
use bsdl_device::{Register, selected_register};
use cell_library::{Instr, Opcode};
use signal_values::{PinSig, Sig};
use std::alloc::Global;
use test_logic::TapState;
use texts::OutOfMemory;

/// What the test logic holds between two edges of TCK.
#[derive(Drop)]
pub struct Held {
    pub state: TapState,
    // The instruction in effect, which the latched opcode tells.
    pub instruction: Instr,
    pub shift: Vec<Sig>,
    pub latched: Vec<Sig>,
    pub data: DataRegisters,
    pub update: Vec<Sig>,
    pub tdo: PinSig,
}

// Latches an opcode, and answers its instruction.
fn latch(opcodes: &[Opcode], latched: &mut [Sig], opcode: &[Sig]) -> Instr
    requires { length latched.old ≡ length opcode.now }
    ensures latched { latched.new ≡ opcode.now }
    ensures instruction { result ≡ instructions.instruction_of opcodes.now opcode.now }
{
    latched.copy_from_slice(opcode);
    instruction_of(opcodes, latched)
}

fn zeros(alloc: Global, count: usize) -> Result<Vec<Sig>, OutOfMemory>
    ensures { IfOk result (λ bits. length bits.items ≡ count) }
{
    Ok(vec![in alloc; Sig::Zero; count]?)
}

impl Held {
    /// Room for what the test logic holds, in reset.
    pub fn new(alloc: Global, logic: &Logic) -> Result<Held, OutOfMemory>
        requires { IsLogic logic.now }
        ensures held { IfOk result (λ h. IsHeld logic.now h) }
        ensures holds { IfOk result (λ h. holds_of h ≡ definition.reset (logic_of logic.now)) }
    {
        let mut held = Held {
            state: TapState::TestLogicReset,
            instruction: Instr::Bypass,
            shift: zeros(alloc, logic.capture.len())?,
            latched: zeros(alloc, logic.capture.len())?,
            data: DataRegisters {
                bypass: Sig::Zero,
                ident: zeros(alloc, logic.code.len())?,
                boundary: zeros(alloc, logic.kinds.len())?,
            },
            update: zeros(alloc, logic.kinds.len())?,
            tdo: PinSig::HighZ,
        };
        held.instruction = latch(
            logic.opcodes.as_slice(),
            held.latched.as_mut_slice(),
            logic.reset_opcode.as_slice(),
        );
        held.reset(logic);
        Ok(held)
    }

    /// Reset, which needs no TCK.
    pub fn reset(&mut self, logic: &Logic)
        requires logic { IsLogic logic.now }
        requires held { IsHeld logic.now self.old }
        ensures held { IsHeld logic.now self.new }
        ensures holds { holds_of self.new ≡ definition.reset (logic_of logic.now) }
    {
        self.state = TapState::TestLogicReset;
        self.instruction = latch(
            logic.opcodes.as_slice(),
            self.latched.as_mut_slice(),
            logic.reset_opcode.as_slice(),
        );
        clear(self.shift.as_mut_slice());
        self.data.reset();
        clear(self.update.as_mut_slice());
        self.tdo = PinSig::HighZ;
    }

    /// A rising edge of TCK.
    pub fn rise(&mut self, logic: &Logic, tms: bool, tdi: Sig, captured: &[Sig])
        requires logic { IsLogic logic.now }
        requires held { IsHeld logic.now self.old }
        requires captured { length captured.now ≡ length logic.now.kinds.items }
        ensures held { IsHeld logic.now self.new }
        ensures holds { holds_of self.new ≡ definition.rise (logic_of logic.now) tms tdi captured.now
            (holds_of self.old) }
    {
        let selected = selected_register(self.instruction);
        let code = match self.instruction {
            Instr::Usercode => &logic.user,
            _ => &logic.code,
        };
        act(
            ir_action(self.state),
            self.shift.as_mut_slice(),
            logic.capture.as_slice(),
            tdi,
        );
        self.data
            .rise(selected, self.state, tdi, code.as_slice(), captured);
        self.state = state_after(self.state, tms);
    }

    /// A falling edge of TCK.
    pub fn fall(&mut self, logic: &Logic)
        requires logic { IsLogic logic.now }
        requires held { IsHeld logic.now self.old }
        ensures held { IsHeld logic.now self.new }
        ensures holds { holds_of self.new ≡ definition.fall (logic_of logic.now) (holds_of self.old) }
    {
        let selected = selected_register(self.instruction);
        self.tdo = tdo_after(
            self.state,
            self.data.nearest(selected),
            first_bit(self.shift.as_slice()),
        );
        self.latch_or_update(logic, selected);
    }

    // What a falling edge does to the latched opcode and the update stage.
    fn latch_or_update(&mut self, logic: &Logic, selected: Register)
        requires logic { IsLogic logic.now }
        requires held { IsHeld logic.now self.old }
        ensures held { IsHeld logic.now self.new }
        ensures holds { holds_of self.new ≡ latched_and_updated (logic_of logic.now) selected
            (holds_of self.old) }
    {
        match (self.state, selected) {
            (TapState::UpdateIr, _) => {
                self.instruction = latch(
                    logic.opcodes.as_slice(),
                    self.latched.as_mut_slice(),
                    self.shift.as_slice(),
                );
            }
            (TapState::TestLogicReset, _) => {
                self.instruction = latch(
                    logic.opcodes.as_slice(),
                    self.latched.as_mut_slice(),
                    logic.reset_opcode.as_slice(),
                );
            }
            (TapState::UpdateDr, Register::Boundary) => update(
                self.update.as_mut_slice(),
                logic.kinds.as_slice(),
                self.data.boundary.as_slice(),
            ),
            (_, _) => {}
        }
    }
}
