// Hidden ports: their names, and the bits of nets.
ghost use Rattle.std.specs.Prelude.{◌≡◌, ◌<◌, slice_get, Some, IfOk};
ghost use Rattle.link_model.specs.Nets as nets;
ghost use Rattle.verilog_tree.specs.Trees as trees;
ghost use Rattle.box_model.specs.Ports as ports;

use box_model::{BoxDir, BoxPort};
use std::alloc::Global;
use texts::{OutOfMemory, Text};
use verilog_tree::{Bit, Dir, Instance, Port, Range};

/// The name of a hidden port: the instance's, a dot and the port's.
pub fn hidden_name(alloc: Global, instance: &[u8], port: &[u8]) -> Result<Text, OutOfMemory>
    ensures { IfOk result (λ name. name ≡ ports.hidden_name instance.now port.now) }
{
    let mut name = Text::from_bytes(alloc, instance)?;
    name.push(b'.')?;
    name.append(port)?;
    Ok(name)
}

fn hidden_dir(dir: BoxDir) -> Dir
    ensures { result ≡ ports.hidden_dir dir }
{
    match dir {
        BoxDir::Gives => Dir::Input,
        BoxDir::Takes => Dir::Output,
    }
}

/// The hidden port of a cut port.
pub fn hidden_port(alloc: Global, instance: &Instance, port: &BoxPort) -> Result<Port, OutOfMemory>
    ensures { IfOk result (λ made. made ≡ ports.hidden_port instance.now port.now) }
{
    Ok(Port {
        name: hidden_name(alloc, instance.name.as_bytes(), port.name.as_bytes())?,
        dir: hidden_dir(port.dir),
        range: port.range,
    })
}

/// The index at a place of a range, from the left; a scalar has none.
pub fn index_at(range: Option<Range>, place: u64) -> Option<u32>
    requires { place < nets.width range }
    ensures { result ≡ nets.index_at range place }
{
    let range = range?;
    if range.left <= range.right {
        Some((u64::from(range.left) + place) as u32)
    } else {
        Some((u64::from(range.left) - place) as u32)
    }
}

/// The bit of a net at a place from the left.
pub fn bit_at(
    alloc: Global,
    name: &[u8],
    range: Option<Range>,
    place: u64,
) -> Result<Bit, OutOfMemory>
    requires { place < nets.width range }
    ensures { IfOk result (λ bit. slice_get (ports.bits_of name.now range) place ≡ Some bit) }
{
    Ok(Bit {
        net: Text::from_bytes(alloc, name)?,
        index: index_at(range, place),
    })
}

pub(crate) fn is_same_range(a: Option<Range>, b: Option<Range>) -> bool
    ensures { result ≡ trees.range_eq a b }
{
    match (a, b) {
        (None, None) => true,
        (Some(a), Some(b)) => a.left == b.left && a.right == b.right,
        (None, Some(_)) | (Some(_), None) => false,
    }
}
