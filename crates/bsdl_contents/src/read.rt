ghost use Rattle.std.specs.Prelude.{◌≡◌, IfErr, IfOk};
ghost use Rattle.bsdl_device.specs.declared.entries.Contents.{Contents as ContentsOf};
ghost use Rattle.bsdl_device.specs.Spelled.{HasContents};
ghost use Rattle.bsdl_contents.specs.Outcomes.{IsFault, TellsAll};
ghost use Rattle.bsdl_contents.specs.Reader.{contents_at};

use crate::fault::{ContentsFault, HeldSection};
use crate::sections;
use bsdl_device::{Contents, File};
use std::alloc::Global;

// The sections in their order, up to the first that is at fault.
fn contents(alloc: Global, file: &File) -> Result<Contents, ContentsFault>
    ensures { TellsAll result (contents_at file.now) }
{
    let pin_map = match sections::pin_map(alloc, file.pin_map.as_slice()) {
        Ok(entries) => entries,
        Err(fault) => return Err(fault.at(HeldSection::PinMap)),
    };
    let opcodes = match sections::opcodes(alloc, file.opcodes.strings.as_slice()) {
        Ok(opcodes) => opcodes,
        Err(fault) => return Err(fault.at(HeldSection::Opcodes)),
    };
    let capture = match sections::capture(alloc, file.capture.strings.as_slice()) {
        Ok(bits) => bits,
        Err(fault) => return Err(fault.at(HeldSection::Capture)),
    };
    let idcode = match sections::optional_code(alloc, &file.idcode) {
        Ok(code) => code,
        Err(fault) => return Err(fault.at(HeldSection::Idcode)),
    };
    let usercode = match sections::optional_code(alloc, &file.usercode) {
        Ok(code) => code,
        Err(fault) => return Err(fault.at(HeldSection::Usercode)),
    };
    let access = match sections::accesses(alloc, file.access.strings.as_slice()) {
        Ok(entries) => entries,
        Err(fault) => return Err(fault.at(HeldSection::Access)),
    };
    let rows = match sections::rows(alloc, file.boundary.strings.as_slice()) {
        Ok(rows) => rows,
        Err(fault) => return Err(fault.at(HeldSection::Rows)),
    };
    Ok(Contents {
        pin_map,
        opcodes,
        capture,
        idcode,
        usercode,
        access,
        rows,
    })
}

/// What the strings of the file's sections hold; no other contents are held by them.
#[tactic(auto, using(crate::proofs::Told::told_ok, crate::proofs::Told::told_only, crate::proofs::Told::told_fault))]
pub fn read_contents(alloc: Global, file: &File) -> Result<Contents, ContentsFault>
    ensures ok { IfOk result (λ c. HasContents file.now c) }
    ensures only { IfOk result (λ c. (other : ContentsOf) → HasContents file.now other → other ≡ c) }
    ensures fault { IfErr result (λ e. IsFault file.now e) }
{
    contents(alloc, file)
}
