// How many bits the ports of each name have, and how many an instance's links join. A module may have many ports and
// many instances of few links, so ports are looked at once and links at each instance.
ghost use Rattle.std.specs.Prelude.{◌≡◌, ◌+◌, ◌<◌, ◌^◌, [], min, not, IfOk, OnOk};
ghost use Rattle.texts.specs.Repeated.{seen};
ghost use Rattle.link_model.specs.Nets as nets;
ghost use Rattle.hier_model.specs.Faults.{cell_limit};
ghost use Rattle.hier_counts.specs.Widths as bits;
ghost use Rattle.hier_counts.specs.Widths.{capped, named_bits, joined_bits};

use crate::once::note;
use indexmap::{IndexMap, IndexSet};
use std::alloc::Global;
use std::marker::Model;
use texts::OutOfMemory;
use verilog_tree::{Dir, Link, Port, Range};

/// The most cells that a hierarchy may have.
pub const CELL_LIMIT: u64 = 262_144;

/// The most nets.
pub const NET_LIMIT: u64 = 524_288;

/// A sum that isn't told past the limit and one.
pub fn capped_sum(a: u64, b: u64, limit: u64) -> u64
    requires { limit < 2 ^ 32 }
    ensures { result ≡ capped limit (a + b) }
{
    a.saturating_add(b).min(limit + 1)
}

/// How many bits a range has.
pub fn width_of(range: Option<Range>) -> u64
    ensures { result ≡ nets.width range }
{
    match range {
        None => 1,
        Some(range) => u64::from(range.left.abs_diff(range.right)) + 1,
    }
}

/// The ports of a module, and how many bits the inputs and outputs of each name have, up to the limit of cells and one.
#[derive(Drop)]
pub struct PortWidths<'a> {
    ports: &'a [Port],
    widths: IndexMap<&'a [u8], u64>,
}

impl<'a> Model for PortWidths<'a> {
    ghost use Rattle.std.specs.Prelude.{List};
    ghost use Rattle.verilog_tree.specs.declared.tree.Port.{Port};
    ghost use Rattle.hier_counts.specs.Widths.{HasWidths};

    ghost Value = { List Port };

    ghost view = { λ t. t.ports.now };

    ghost invariant = { λ t. HasWidths t.ports.now t.widths.entries };
}

// How many bits a port adds to its name.
fn port_bits(port: &Port) -> u64
    ensures { result ≡ bits.port_bits port.now }
{
    match port.dir {
        Dir::Inout => 0,
        Dir::Input | Dir::Output => width_of(port.range),
    }
}

// What stands under a name; 0 where nothing does.
fn width_under(widths: &IndexMap<&[u8], u64>, name: &[u8]) -> u64
    ensures { result ≡ bits.width_under widths.now.entries name.now }
{
    match widths.get(name) {
        Some(width) => *width,
        None => 0,
    }
}

impl<'a> PortWidths<'a> {
    /// The widths of ports.
    pub fn of(alloc: Global, ports: &'a [Port]) -> Result<PortWidths<'a>, OutOfMemory>
        ensures { IfOk result (λ table. table ≡ ports.now) }
    {
        let mut widths = IndexMap::new(alloc);
        for port in ports {
            let name = port.name.as_bytes();
            let sum = capped_sum(width_under(&widths, name), port_bits(port), CELL_LIMIT);
            widths.insert(name, sum)?;
        }
        Ok(PortWidths { ports, widths })
    }

    /// How many bits the inputs and outputs of a name have.
    pub fn named(&self, name: &[u8]) -> u64
        ensures { result ≡ capped cell_limit (named_bits name.now self.now) }
    {
        width_under(&self.widths, name)
    }

    /// How many bits links join: each name that some link connects counts once.
    pub fn joined(&self, alloc: Global, links: &[Link]) -> Result<u64, OutOfMemory>
        ensures { IfOk result (λ sum. sum ≡ capped cell_limit (joined_bits [] links.now self.now)) }
    {
        let mut names = IndexSet::new(alloc);
        let mut sum = 0;
        for link in links {
            let name = link.port.as_bytes();
            if link.operand.is_some() && note(&mut names, name)? {
                sum = capped_sum(sum, self.named(name), CELL_LIMIT);
            }
        }
        Ok(sum)
    }
}
