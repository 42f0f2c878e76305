// Values under numbers, in places of a slab.
// - `put` gives a value the number that is the count of values where that is free, and else the number after all
//   others. A value keeps its number until `remove`. `push` and `push_hole` make copies that have the same numbers.
// - Calls without a Result take no memory: `reserve` and `sized_as` make the room, and a refusal leaves it.
// - `value_mut` lends the value of a number, and all others stay.
// Contracts cite specs/PlacesLaws.antt; none speaks of keys of the slab.
// Own: no chapter of a standard speaks of it.

ghost use Rattle.std.specs.Prelude.{◌≡◌, ◌+◌, ◌-◌, ◌^◌, ◌<◌, ◌≤◌, ◌↔◌, [], ◌∷◌, ◌++◌, max, length, slice_get, slice_set, vec_len, vec_capacity, IsSome, IsTrue, Some, None, IfOk, IfSome, OnOk, OnErr, option_copied, count_by, is_some};
ghost use Rattle.std.specs.Borrow.{sem};
ghost use Rattle.linked_cells.specs.PlacesLaws.{place_at, Puts};

mod key;

use key::Key;
use slab::Slab;
use std::alloc::{AllocError, Global};
use std::marker::Model;

/// Values under numbers, with room for so many more.
#[derive(Drop)]
pub struct Places<T> {
    // The key of each number that has a value.
    keys: Vec<Key>,
    values: Slab<T>,
    spare: u32,
}

impl<T> Model for Places<T> {
    ghost use Rattle.std.specs.Prelude.{map, vec_len, vec_capacity};
    ghost use Rattle.linked_cells.specs.PlacesLaws.{PlacesView, places_code, place_of, IsSound};

    ghost Value = { PlacesView T };

    ghost coded = { places_code T.code };

    ghost view = { λ p. record {
      items = map (place_of p.values) p.keys.items;
      spare = p.spare;
    } };

    ghost invariant = { λ p. IsSound p.keys.items (vec_len p.keys) (vec_capacity p.keys) p.values p.spare };
}

impl<T: Drop> Places<T> {
    ghost use Rattle.linked_cells.specs.Lends.{lends_place};

    /// No values and no room, which takes no memory.
    pub fn new(alloc: Global) -> Places<T>
        ensures items { result.items ≡ [] }
        ensures spare { result.spare ≡ 0 }
    {
        Places {
            keys: Vec::new(alloc),
            values: Slab::new(alloc),
            spare: 0,
        }
    }

    /// No values, with room for as many as this has places and spare ones.
    pub fn sized_as(&self, alloc: Global) -> Result<Places<T>, AllocError>
        ensures items { IfOk result (λ p. p.items ≡ []) }
        ensures spare { IfOk result (λ p. p.spare ≡ length self.now.items + self.now.spare) }
    {
        let room = self.keys.len() + self.spare as usize;
        let keys = Vec::with_capacity(alloc, room)?;
        let values = Slab::with_capacity(alloc, room)?;
        Ok(Places {
            keys,
            values,
            spare: room as u32,
        })
    }

    /// Puts a value after the others.
    pub fn push(&mut self, value: T)
        requires { 0 < self.old.spare }
        ensures items { self.new.items ≡ self.old.items ++ Some value ∷ [] }
        ensures spare { self.new.spare ≡ self.old.spare - 1 }
    {
        let number = self.values.insert_reserved(value);
        let key = key_for(&self.values, number);
        self.keys.push_reserved(key);
        self.spare -= 1;
    }

    /// Leaves a number after the others without a value.
    pub fn push_hole(&mut self)
        requires { 0 < self.old.spare }
        ensures items { self.new.items ≡ self.old.items ++ None ∷ [] }
        ensures spare { self.new.spare ≡ self.old.spare - 1 }
    {
        self.keys.push_reserved(Key::none());
        self.spare -= 1;
    }

    /// Makes room for so many more values at least.
    pub fn reserve(&mut self, spare: u32) -> Result<(), AllocError>
        ensures items { self.new.items ≡ self.old.items }
        ensures ok { OnOk result (self.new.spare ≡ max self.old.spare spare) }
        ensures err { OnErr result (self.new.spare ≡ self.old.spare) }
    {
        let spare = self.spare.max(spare);
        if self.keys.len() as u64 + u64::from(spare) > u64::from(u32::MAX) {
            return Err(AllocError);
        }
        self.keys.reserve(spare as usize)?;
        self.values.reserve(spare as usize)?;
        self.spare = spare;
        Ok(())
    }

    /// Puts a value under a number of its own, and tells the number.
    pub fn put(&mut self, value: T) -> u32
        requires { 0 < self.old.spare }
        ensures puts { Puts self.old.items self.new.items (count_by is_some self.old.items) result value }
        ensures spare { self.new.spare ≡ self.old.spare - 1 }
    {
        let free = self.values.len();
        let number = self.values.insert_reserved(value);
        let key = key_for(&self.values, number);
        self.spare -= 1;
        put_key(&mut self.keys, free, key)
    }

    /// The value under a number, if there is one.
    pub fn get(&self, number: u32) -> Option<&T>
        ensures { option_copied result ≡ place_at self.now.items number }
    {
        match key_at(&self.keys, number) {
            Some(key) => self.values.get(key),
            None => None,
        }
    }

    /// The value under a number that has one, for writing.
    pub fn value_mut(&mut self, number: u32) -> &mut T
        requires { IsSome (place_at self.old.items number) }
        ensures* writes_back { sem 𝓛 (lends_place T.row self.entry number result) }
        ensures value { place_at self.old.items number ≡ Some result.now }
    {
        let key = key_of(&self.keys, number);
        &mut self.values[key]
    }

    /// Removes the value under a number.
    pub fn remove(&mut self, number: u32)
        requires { IsSome (place_at self.old.items number) }
        ensures items { self.new.items ≡ slice_set self.old.items number None }
        ensures spare { self.new.spare ≡ self.old.spare }
    {
        let key = key_of(&self.keys, number);
        self.values.remove(key);
        self.keys[number as usize] = Key::none();
    }

    /// How many values there are.
    pub fn len(&self) -> u32
        ensures { result ≡ count_by is_some self.now.items }
    {
        self.values.len() as u32
    }

    /// A number that is greater than that of each value.
    pub fn bound(&self) -> u32
        ensures { result ≡ length self.now.items }
    {
        self.keys.len() as u32
    }
}

// The key of a value that stands in the slab.
fn key_for<T>(values: &Slab<T>, number: usize) -> Key
    requires { number < values.now.capacity }
    ensures { result ≡ Some number }
{
    let capacity = values.capacity();
    prove!(number < capacity);
    Key::new(number)
}

// Puts a key in the place of this number where that is empty, else after the others, and answers its number.
fn put_key(keys: &mut Vec<Key>, free: usize, key: Key) -> u32
    requires room { vec_len keys.old < vec_capacity keys.old }
    requires numbers { vec_len keys.old + 1 < 2 ^ 32 }
    requires there { IsSome key }
    ensures puts { IfSome key (λ number. Puts keys.old.items keys.new.items free result number) }
    ensures len { vec_len keys.new ≤ vec_len keys.old + 1 }
    ensures capacity { vec_capacity keys.old ≤ vec_capacity keys.new }
{
    if is_empty_at(keys, free) {
        keys[free] = key;
        return free as u32;
    }
    let number = keys.len() as u32;
    keys.push_reserved(key);
    number
}

// Whether there is a place of this number, and it is empty.
fn is_empty_at(keys: &[Key], number: usize) -> bool
    ensures { IsTrue result ↔ (slice_get keys.now number ≡ Some None) }
{
    match keys.get(number) {
        Some(key) => key.get().is_none(),
        None => false,
    }
}

// The key of a number, if it has a value.
fn key_at(keys: &[Key], number: u32) -> Option<usize>
    ensures { result ≡ place_at keys.now number }
{
    match keys.get(number as usize) {
        Some(key) => key.get(),
        None => None,
    }
}

// The key of a number that has a value.
fn key_of(keys: &[Key], number: u32) -> usize
    requires { IsSome (place_at keys.now number) }
    ensures { place_at keys.now number ≡ Some result }
{
    match key_at(keys, number) {
        Some(key) => key,
        None => unreachable!(),
    }
}
