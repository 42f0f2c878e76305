// Names found in tables: the place where each first stands, and how often it stands.
ghost use Rattle.std.specs.Prelude.{◌≡◌, ℕ, List, count_by, position, if◌then◌else◌, IfOk, OnOk};
ghost use Rattle.std.specs.Str.{bytes_eq};
ghost use Rattle.texts.specs.Repeated.{has_name, texts};
ghost use Rattle.box_tables.specs.Names.{count_of};

use indexmap::IndexMap;
use std::alloc::Global;
use std::marker::Model;
use texts::first_faults::first_places;
use texts::{OutOfMemory, Text};

/// A list of names, each of which is found where it first stands.
#[derive(Drop)]
pub struct NamePlaces<'a> {
    names: Vec<&'a [u8]>,
    places: IndexMap<&'a [u8], usize>,
}

impl<'a> Model for NamePlaces<'a> {
    ghost use Rattle.std.specs.Prelude.{ℕ, List};
    ghost use Rattle.texts.specs.Repeated.{texts};
    ghost use Rattle.box_tables.specs.Names.{FindsNames};

    ghost Value = { List (List ℕ) };

    ghost view = { λ t. texts t.names.items };

    ghost invariant = { λ t. FindsNames (texts t.names.items) t.places.entries };
}

impl<'a> NamePlaces<'a> {
    /// A table of these names.
    pub fn of(alloc: Global, names: Vec<&'a [u8]>) -> Result<NamePlaces<'a>, OutOfMemory>
        ensures { IfOk result (λ table. table ≡ texts names.entry.items) }
    {
        let places = first_places(alloc, &names)?;
        Ok(NamePlaces { names, places })
    }

    /// A table of texts.
    pub fn of_texts(alloc: Global, list: &'a [Text]) -> Result<NamePlaces<'a>, OutOfMemory>
        ensures { IfOk result (λ table. table ≡ list.now) }
    {
        let mut names = Vec::new(alloc);
        for name in list {
            names.push(name.as_bytes())?;
        }
        let table = NamePlaces::of(alloc, names)?;
        Ok(table)
    }

    /// Where a name first stands.
    pub fn find(&self, name: &[u8]) -> Option<usize>
        ensures { result ≡ position (bytes_eq name.now) self.now }
    {
        self.places.get(name).copied()
    }

    /// Whether a name stands there.
    pub fn has(&self, name: &[u8]) -> bool
        ensures { result ≡ has_name self.now name.now }
    {
        self.find(name).is_some()
    }
}

/// A list of names, of each of which is known how often it stands there.
#[derive(Drop)]
pub(crate) struct NameCounts<'a> {
    names: Vec<&'a [u8]>,
    counts: IndexMap<&'a [u8], usize>,
}

impl<'a> Model for NameCounts<'a> {
    ghost use Rattle.std.specs.Prelude.{ℕ, List};
    ghost use Rattle.texts.specs.Repeated.{texts};
    ghost use Rattle.box_tables.specs.Names.{CountsNames};

    ghost Value = { List (List ℕ) };

    ghost view = { λ t. texts t.names.items };

    ghost invariant = { λ t. CountsNames (texts t.names.items) t.counts.entries };
}

// How often a name was counted.
fn count_in(counts: &IndexMap<&[u8], usize>, name: &[u8]) -> usize
    ensures { result ≡ count_of counts.now.entries name.now }
{
    match counts.get(name) {
        Some(count) => *count,
        None => 0,
    }
}

fn set_count<'a>(
    counts: &mut IndexMap<&'a [u8], usize>,
    name: &'a [u8],
    count: usize,
) -> Result<(), OutOfMemory>
    ensures { OnOk result ((other : List ℕ) → count_of counts.new.entries other
        ≡ (if bytes_eq other name.now then count else count_of counts.old.entries other)) }
{
    counts.insert(name, count)?;
    Ok(())
}

fn count_names<'a>(
    alloc: Global,
    names: &[&'a [u8]],
) -> Result<IndexMap<&'a [u8], usize>, OutOfMemory>
    ensures { IfOk result (λ counts. (name : List ℕ) → count_of counts.entries name
        ≡ count_by (bytes_eq name) (texts names.now)) }
{
    let mut counts = IndexMap::new(alloc);
    for name in names {
        let name = *name;
        let count = count_in(&counts, name) + 1;
        set_count(&mut counts, name, count)?;
    }
    Ok(counts)
}

impl<'a> NameCounts<'a> {
    /// A table of these names.
    pub(crate) fn of(alloc: Global, names: Vec<&'a [u8]>) -> Result<NameCounts<'a>, OutOfMemory>
        ensures { IfOk result (λ table. table ≡ texts names.entry.items) }
    {
        let counts = count_names(alloc, &names)?;
        Ok(NameCounts { names, counts })
    }

    /// How often a name stands there.
    pub(crate) fn times(&self, name: &[u8]) -> usize
        ensures { result ≡ count_by (bytes_eq name.now) self.now }
    {
        count_in(&self.counts, name)
    }
}
