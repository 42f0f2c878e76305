ghost use Rattle.std.specs.Prelude.{◌≡◌};
ghost use Rattle.command_faults.specs.Statuses as statuses;
ghost use Rattle.command_faults.specs.declared.fault.Fault.TheVariants as made;

use crate::status::Status;
use box_model::BoxFault;
use bsdl_device::DeviceTextFault;
use bsdl_values::register_texts::ExtendedTextFault;
use cell_text::LibFault;
use hier_model::HierFault;
use link_model::LinkFault;
use netlist_model::What;
use plan_fitting::FitFault;
use plan_texts::PlanFault;
use scan_vectors::EventFault;
use scan_vectors::scripts::ScriptFault;
use status_fitting::register_texts::StatusFault;
use std::fmt;
use texts::OutOfMemory;
use thiserror::Error;
use verilog_texts::TextFault;

/// Why a command is refused. Names are those of the command's words.
#[derive(Drop, Error)]
pub enum Fault<'a> {
    #[error("the words are no command")]
    Usage,
    #[error("an output has the name of another file of the command")]
    SameName { name: &'a str },
    #[error("a file couldn't be read")]
    ReadFault { name: &'a str },
    #[error("a text is longer than 16,777,216 bytes")]
    TooLong { name: &'a str },
    #[error("a netlist's text is no module")]
    Netlist(TextFault),
    #[error("modules can't be made flat")]
    Hier(HierFault),
    #[error("the boxes of a module can't be opened")]
    Boxes(BoxFault),
    #[error("a module is no netlist")]
    Link(LinkFault),
    #[error("a text is no library of cells")]
    Library(LibFault),
    #[error("a text is none of events")]
    Events(EventFault),
    #[error("event lines aren't legal for a netlist")]
    Script(ScriptFault),
    #[error("a BSDL text is no device")]
    Device(DeviceTextFault),
    #[error("a BSDL text is no device, nor one with registers of its own")]
    Extended(ExtendedTextFault),
    #[error("a text is no plan")]
    Plan(PlanFault),
    #[error("a plan doesn't fit a netlist")]
    Fit(FitFault),
    #[error("a text is none of data registers, or they don't fit a plan and a netlist")]
    Registers(StatusFault),
    #[error("a netlist would have {count} of something, where {limit} is the limit")]
    TooMany { what: What, count: u64, limit: u64 },
    #[error("no netlist and plan give these two texts")]
    NotInserted,
    #[error("out of memory")]
    OutOfMemory,
    #[error("a file couldn't be written")]
    WriteFault { name: &'a str },
}

// By hand, so that the faults below need no text of their own.
impl fmt::Debug for Fault<'_> {
    fn fmt<W: fmt::Write>(&self, f: &mut fmt::Formatter<W>) -> fmt::Result {
        fmt::Display::fmt(self, f)
    }
}

impl From<TextFault> for Fault<'_> {
    ghost from_gives = { λ fault given. given ≡ made.Netlist fault };

    fn from(fault: TextFault) -> Self {
        Fault::Netlist(fault)
    }
}

impl From<HierFault> for Fault<'_> {
    ghost from_gives = { λ fault given. given ≡ made.Hier fault };

    fn from(fault: HierFault) -> Self {
        Fault::Hier(fault)
    }
}

impl From<BoxFault> for Fault<'_> {
    ghost from_gives = { λ fault given. given ≡ made.Boxes fault };

    fn from(fault: BoxFault) -> Self {
        Fault::Boxes(fault)
    }
}

impl From<LinkFault> for Fault<'_> {
    ghost from_gives = { λ fault given. given ≡ made.Link fault };

    fn from(fault: LinkFault) -> Self {
        Fault::Link(fault)
    }
}

impl From<LibFault> for Fault<'_> {
    ghost from_gives = { λ fault given. given ≡ made.Library fault };

    fn from(fault: LibFault) -> Self {
        Fault::Library(fault)
    }
}

impl From<EventFault> for Fault<'_> {
    ghost from_gives = { λ fault given. given ≡ made.Events fault };

    fn from(fault: EventFault) -> Self {
        Fault::Events(fault)
    }
}

impl From<ScriptFault> for Fault<'_> {
    ghost from_gives = { λ fault given. given ≡ made.Script fault };

    fn from(fault: ScriptFault) -> Self {
        Fault::Script(fault)
    }
}

impl From<DeviceTextFault> for Fault<'_> {
    ghost from_gives = { λ fault given. given ≡ made.Device fault };

    fn from(fault: DeviceTextFault) -> Self {
        Fault::Device(fault)
    }
}

impl From<ExtendedTextFault> for Fault<'_> {
    ghost from_gives = { λ fault given. given ≡ made.Extended fault };

    fn from(fault: ExtendedTextFault) -> Self {
        Fault::Extended(fault)
    }
}

impl From<OutOfMemory> for Fault<'_> {
    ghost from_gives = { λ _ given. given ≡ made.OutOfMemory };

    fn from(_fault: OutOfMemory) -> Self {
        Fault::OutOfMemory
    }
}

impl Fault<'_> {
    /// The status with which a command ends by this fault.
    pub fn status(&self) -> Status
        ensures { result ≡ statuses.status_of self.now }
    {
        match self {
            Fault::Usage | Fault::SameName { .. } => Status::Usage,
            Fault::ReadFault { .. } => Status::ReadFault,
            Fault::TooLong { .. } => Status::Refused,
            Fault::Netlist(TextFault::OutOfMemory)
            | Fault::Hier(HierFault::OutOfMemory)
            | Fault::Boxes(BoxFault::OutOfMemory)
            | Fault::Link(LinkFault::OutOfMemory)
            | Fault::Library(LibFault::OutOfMemory)
            | Fault::Events(EventFault::OutOfMemory)
            | Fault::Script(ScriptFault::OutOfMemory)
            | Fault::Device(DeviceTextFault::OutOfMemory)
            | Fault::Extended(ExtendedTextFault::OutOfMemory)
            | Fault::Plan(PlanFault::OutOfMemory)
            | Fault::Fit(FitFault::OutOfMemory)
            | Fault::Registers(StatusFault::OutOfMemory)
            | Fault::OutOfMemory => Status::Memory,
            Fault::Netlist(_)
            | Fault::Hier(_)
            | Fault::Boxes(_)
            | Fault::Link(_)
            | Fault::Library(_)
            | Fault::Events(_)
            | Fault::Script(_)
            | Fault::Device(_)
            | Fault::Extended(_)
            | Fault::Plan(_)
            | Fault::Fit(_)
            | Fault::Registers(_)
            | Fault::TooMany { .. }
            | Fault::NotInserted => Status::Refused,
            Fault::WriteFault { .. } => Status::WriteFault,
        }
    }
}
