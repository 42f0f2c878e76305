// The rows of a boundary register, and how often each bit of a port stands in them.
ghost use Rattle.std.specs.Prelude.{◌≡◌, ◌==◌, ◌++◌, [], IfOk, OnOk, count_by};
ghost use Rattle.std.specs.List.{cons_option, filter_map};
ghost use Rattle.bsdl_device.specs.Ports as declared;
ghost use Rattle.bsdl_device.specs.RowRules as row_rule;
ghost use Rattle.bsdl_row_rules.specs.Bits.{bit_of_key, bits_in};

use bsdl_device::{PortBit, RowEntry};
use bsdl_lexicon::NameKey;
use bsdl_port_rules::{Uses, comes_once, uses_of};
use indexmap::IndexMap;
use std::alloc::Global;
use std::marker::Model;
use texts::OutOfMemory;

/// A bit of a port as a key.
#[derive(Clone, Copy, PartialEq, Eq, Hash)]
pub struct BitKey<'a> {
    pub port: NameKey<'a>,
    pub index: Option<u32>,
}

/// Rows, and how often each bit of a port stands in them.
#[derive(Drop)]
pub struct BitRows<'a> {
    rows: &'a [RowEntry],
    uses: IndexMap<BitKey<'a>, Uses>,
}

impl<'a> Model for BitRows<'a> {
    ghost use Rattle.std.specs.Prelude.{List};
    ghost use Rattle.bsdl_device.specs.declared.entries.RowEntry.{RowEntry};
    ghost use Rattle.bsdl_row_rules.specs.Bits.{CountsBits};

    ghost Value = { List RowEntry };

    ghost view = { λ t. t.rows.now };

    ghost invariant = { λ t. CountsBits t.rows.now t.uses.entries };
}

fn bit_key<'a>(bit: &'a PortBit) -> BitKey<'a>
    ensures { bit_of_key result ≡ bit.now }
{
    BitKey {
        port: NameKey(bit.port.as_bytes()),
        index: bit.index,
    }
}

// The bits at which rows stand.
fn bits_of_rows<'a>(alloc: Global, rows: &'a [RowEntry]) -> Result<Vec<BitKey<'a>>, OutOfMemory>
    ensures { IfOk result (λ keys. bits_in keys.items ≡ filter_map (λ r. r.port) rows.now) }
{
    let mut keys = Vec::new(alloc);
    for row in rows {
        push_bit(&mut keys, row)?;
    }
    Ok(keys)
}

fn push_bit<'a>(keys: &mut Vec<BitKey<'a>>, row: &'a RowEntry) -> Result<(), OutOfMemory>
    ensures { OnOk result (bits_in keys.new.items ≡ bits_in keys.old.items
        ++ cons_option row.now.port []) }
{
    match &row.port {
        None => Ok(()),
        Some(bit) => {
            keys.push(bit_key(bit))?;
            Ok(())
        }
    }
}

impl<'a> BitRows<'a> {
    /// The rows, counted by their bits.
    pub fn of(alloc: Global, rows: &'a [RowEntry]) -> Result<BitRows<'a>, OutOfMemory>
        ensures { IfOk result (λ made. made ≡ rows.now) }
    {
        let keys = bits_of_rows(alloc, rows)?;
        let uses = uses_of(alloc, &keys)?;
        Ok(BitRows { rows, uses })
    }

    /// Whether a bit stands in one row.
    pub fn has_once(&self, name: &[u8], index: Option<u32>) -> bool
        ensures { result ≡ (count_by (row_rule.is_row_of
            (declared.bit_of_port name.now index)) self.now == 1) }
    {
        let bit = BitKey {
            port: NameKey(name),
            index,
        };
        comes_once(self.uses.get(&bit).copied())
    }
}
