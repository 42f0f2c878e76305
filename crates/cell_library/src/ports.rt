// The name and the ports of a library cell, or of a listed one.

ghost use Rattle.std.specs.Prelude.{◌≡◌, ◌<◌, length, slice_get, Some, option_copied};
ghost use Rattle.cell_library.specs.Library.{cell_name, flop_name, flop_ports, operand_ports, output_port};

use crate::{Edge, FlopKind, Kind, Library, ResetTo};

/// The name of a library cell or a listed one. None for a primitive gate and for an `assign`.
pub fn cell_name(library: &Library, kind: Kind) -> Option<&[u8]>
    ensures { option_copied result ≡ cell_name library.now kind }
{
    match kind {
        Kind::Mux2 => Some(b"MUX2"),
        Kind::Flop(flop) => Some(flop_name(flop)),
        Kind::Listed(number) => library.name_of(number),
        _ => None,
    }
}

fn flop_name(flop: FlopKind) -> &'static [u8]
    ensures { result.now ≡ flop_name flop.edge flop.reset }
{
    match (flop.edge, flop.reset) {
        (Edge::Rise, ResetTo::Nothing) => b"DFF",
        (Edge::Fall, ResetTo::Nothing) => b"DFFN",
        (Edge::Rise, ResetTo::Zero) => b"DFFR",
        (Edge::Fall, ResetTo::Zero) => b"DFFNR",
        (Edge::Rise, ResetTo::One) => b"DFFS",
        (Edge::Fall, ResetTo::One) => b"DFFNS",
    }
}

/// How many ports a library cell or a listed one has for its operands; none for a primitive gate.
pub fn operand_port_count(library: &Library, kind: Kind) -> u32
    ensures { result ≡ length (operand_ports library.now kind) }
{
    match kind {
        Kind::Mux2 => 3,
        Kind::Flop(flop) => match flop.reset {
            ResetTo::Nothing => 2,
            ResetTo::Zero | ResetTo::One => 3,
        },
        Kind::Listed(number) => library.input_count(number),
        _ => 0,
    }
}

/// The port of a cell's operand.
pub fn operand_port(library: &Library, kind: Kind, place: u32) -> &[u8]
    requires { place < length (operand_ports library.now kind) }
    ensures { slice_get (operand_ports library.now kind) place ≡ Some result.now }
{
    match kind {
        Kind::Mux2 => match place {
            0 => b"A",
            1 => b"B",
            _ => b"S",
        },
        Kind::Flop(flop) => flop_port(flop.reset, place),
        Kind::Listed(number) => library.input_port_of(number, place),
        _ => unreachable!(),
    }
}

fn flop_port(reset: ResetTo, place: u32) -> &'static [u8]
    requires { place < length (flop_ports reset) }
    ensures { slice_get (flop_ports reset) place ≡ Some result.now }
{
    match place {
        0 => b"D",
        1 => b"CK",
        _ => match reset {
            ResetTo::Zero => b"RN",
            ResetTo::One => b"SN",
            ResetTo::Nothing => unreachable!(),
        },
    }
}

/// The port of a cell's output. None for a primitive gate.
pub fn output_port(library: &Library, kind: Kind) -> Option<&[u8]>
    ensures { option_copied result ≡ output_port library.now kind }
{
    match kind {
        Kind::Mux2 => Some(b"Y"),
        Kind::Flop(_) => Some(b"Q"),
        Kind::Listed(number) => library.output_port_of(number),
        _ => None,
    }
}
