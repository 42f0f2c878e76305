// Kinds, each by its number.
ghost use Rattle.std.specs.Prelude.{◌≡◌};
ghost use Rattle.netlist_recovery.specs.Kinds as kinds;

use crate::equality::values::Same;
use bsdl_device::{PortMode, Safe, Stop};
use cell_library::{BoundaryKind, Function, Instr};
use verilog_tree::{Dir, GateKind};

fn dir_number(one: Dir) -> u32
    ensures { result ≡ kinds.dir_number one }
{
    match one {
        Dir::Input => 0,
        Dir::Output => 1,
        Dir::Inout => 2,
    }
}

impl Same for Dir {
    #[tactic(auto, using(crate::proofs::KindNumbers::dir_same))]
    fn is_same(&self, other: &Dir) -> bool {
        dir_number(*self) == dir_number(*other)
    }
}

fn gate_number(one: GateKind) -> u32
    ensures { result ≡ kinds.gate_number one }
{
    match one {
        GateKind::And => 0,
        GateKind::Or => 1,
        GateKind::Nand => 2,
        GateKind::Nor => 3,
        GateKind::Xor => 4,
        GateKind::Xnor => 5,
        GateKind::Buf => 6,
        GateKind::Not => 7,
        GateKind::Bufif0 => 8,
        GateKind::Bufif1 => 9,
    }
}

impl Same for GateKind {
    #[tactic(auto, using(crate::proofs::KindNumbers::gate_same))]
    fn is_same(&self, other: &GateKind) -> bool {
        gate_number(*self) == gate_number(*other)
    }
}

fn mode_number(one: PortMode) -> u32
    ensures { result ≡ kinds.mode_number one }
{
    match one {
        PortMode::Input => 0,
        PortMode::Output => 1,
        PortMode::Inout => 2,
        PortMode::Linkage => 3,
    }
}

impl Same for PortMode {
    #[tactic(auto, using(crate::proofs::KindNumbers::mode_same))]
    fn is_same(&self, other: &PortMode) -> bool {
        mode_number(*self) == mode_number(*other)
    }
}

fn stop_number(one: Stop) -> u32
    ensures { result ≡ kinds.stop_number one }
{
    match one {
        Stop::Low => 0,
        Stop::Both => 1,
    }
}

impl Same for Stop {
    #[tactic(auto, using(crate::proofs::KindNumbers::stop_same))]
    fn is_same(&self, other: &Stop) -> bool {
        stop_number(*self) == stop_number(*other)
    }
}

fn safe_number(one: Safe) -> u32
    ensures { result ≡ kinds.safe_number one }
{
    match one {
        Safe::Zero => 0,
        Safe::One => 1,
        Safe::Any => 2,
    }
}

impl Same for Safe {
    #[tactic(auto, using(crate::proofs::KindNumbers::safe_same))]
    fn is_same(&self, other: &Safe) -> bool {
        safe_number(*self) == safe_number(*other)
    }
}

fn cell_number(one: BoundaryKind) -> u32
    ensures { result ≡ kinds.cell_number one }
{
    match one {
        BoundaryKind::Bc1 => 0,
        BoundaryKind::Bc2 => 1,
        BoundaryKind::Bc4 => 2,
        BoundaryKind::Bc7 => 3,
    }
}

impl Same for BoundaryKind {
    #[tactic(auto, using(crate::proofs::KindNumbers::cell_same))]
    fn is_same(&self, other: &BoundaryKind) -> bool {
        cell_number(*self) == cell_number(*other)
    }
}

fn function_number(one: Function) -> u32
    ensures { result ≡ kinds.function_number one }
{
    match one {
        Function::Input => 0,
        Function::Output2 => 1,
        Function::Output3 => 2,
        Function::Control => 3,
        Function::Bidir => 4,
        Function::Clock => 5,
    }
}

impl Same for Function {
    #[tactic(auto, using(crate::proofs::KindNumbers::function_same))]
    fn is_same(&self, other: &Function) -> bool {
        function_number(*self) == function_number(*other)
    }
}

fn instr_number(one: Instr) -> u32
    ensures { result ≡ kinds.instr_number one }
{
    match one {
        Instr::Bypass => 0,
        Instr::Extest => 1,
        Instr::Sample => 2,
        Instr::Preload => 3,
        Instr::Idcode => 4,
        Instr::Highz => 5,
        Instr::Clamp => 6,
        Instr::Usercode => 7,
    }
}

impl Same for Instr {
    #[tactic(auto, using(crate::proofs::KindNumbers::instr_same))]
    fn is_same(&self, other: &Instr) -> bool {
        instr_number(*self) == instr_number(*other)
    }
}
