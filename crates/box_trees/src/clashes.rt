// Hidden names with a bit as whose word a scalar port is named.
ghost use Rattle.std.specs.Prelude.{◌≡◌, ◌||◌, ℕ, List, IfOk, OnOk};
ghost use Rattle.texts.specs.Repeated.{bytes_of, has_name, texts};
ghost use Rattle.box_trees.specs.HiddenNames.{IsBracketless, clashes_among, clashes_with, indexed, is_name, is_word_in};

use crate::bit_words::{digits_within, part_word};
use crate::hidden_names::HiddenTable;
use box_tables::NamePlaces;
use std::alloc::Global;
use texts::OutOfMemory;
use verilog_tree::Port;

// The hidden name with a bit of this word.
fn clash_of_word<'a>(hidden: &HiddenTable<'a>, word: &[u8]) -> Option<&'a [u8]>
    ensures { (name : List ℕ) → is_name (bytes_of result) name
        ≡ is_word_in hidden.now word.now name }
{
    match part_word(word) {
        None => None,
        Some(bit) => clash_of_bit(hidden, bit.name, bit.digits),
    }
}

// That of this name, if the digits are an index of it.
fn clash_of_bit<'a>(hidden: &HiddenTable<'a>, name: &[u8], digits: &[u8]) -> Option<&'a [u8]>
    requires { IsBracketless digits.now }
    ensures { (other : List ℕ) → is_name (bytes_of result) other
        ≡ is_word_in hidden.now (indexed name.now digits.now) other }
{
    match hidden.find(name) {
        None => None,
        Some(first) => {
            if digits_within(first.vector, digits) {
                Some(first.name.as_bytes())
            } else {
                None
            }
        }
    }
}

// That with a bit as whose word the port is named.
fn clash_of<'a>(hidden: &HiddenTable<'a>, port: &Port) -> Option<&'a [u8]>
    ensures { (name : List ℕ) → is_name (bytes_of result) name
        ≡ clashes_with hidden.now name port.now }
{
    match port.range {
        Some(_) => None,
        None => clash_of_word(hidden, port.name.as_bytes()),
    }
}

fn add_clash<'a>(
    hidden: &HiddenTable<'a>,
    port: &Port,
    names: &mut Vec<&'a [u8]>,
) -> Result<(), OutOfMemory>
    ensures { OnOk result ((name : List ℕ) → has_name (texts names.new.items) name
        ≡ (has_name (texts names.old.items) name || clashes_with hidden.now name port.now)) }
{
    match clash_of(hidden, port) {
        None => {}
        Some(name) => names.push(name)?,
    }
    Ok(())
}

fn clashes_of<'a>(
    alloc: Global,
    hidden: &HiddenTable<'a>,
    ports: &[Port],
) -> Result<Vec<&'a [u8]>, OutOfMemory>
    ensures { IfOk result (λ names. (name : List ℕ) → has_name (texts names.items) name
        ≡ clashes_among hidden.now ports.now name) }
{
    let mut names = Vec::new(alloc);
    for port in ports {
        add_clash(hidden, port, &mut names)?;
    }
    Ok(names)
}

/// The hidden names of which a bit has the word of some port.
pub(crate) fn clashing_names<'a>(
    alloc: Global,
    hidden: &HiddenTable<'a>,
    ports: &[Port],
) -> Result<NamePlaces<'a>, OutOfMemory>
    ensures { IfOk result (λ names. (name : List ℕ) → has_name names name
        ≡ clashes_among hidden.now ports.now name) }
{
    let names = clashes_of(alloc, hidden, ports)?;
    let places = NamePlaces::of(alloc, names)?;
    Ok(places)
}
