// The places at which each number stands in a list, as ranges of one list.
// Contracts cite specs/KeysLaws.antt. Own: no chapter of a standard speaks of it.
//
// - `ranges_of`, where Ok, has for each number below the bound a range of places: exactly those at which it stands.
// By the contract of `ranges_of`.

ghost use Rattle.std.specs.Prelude.{◌≡◌, ◌≢◌, ◌≤◌, ◌<◌, ◌+◌, ◌^◌, ℕ, length, slice_get, slice_index, Some, None, IfOk, OnOk};
ghost use Rattle.event_parts.specs.KeysLaws.{AreRanges, Grows, IsKey, IsLast, IsRange, link_at};

use std::alloc::Global;
use texts::OutOfMemory;

/// The ranges of each number below a bound, and the places in them.
#[derive(Drop)]
pub struct Ranges {
    pub starts: Vec<usize>,
    pub places: Vec<u32>,
}

/// The places of each number. The time is linear in the list and the bound.
pub fn ranges_of(alloc: Global, keys: &[Option<u32>], bound: usize) -> Result<Ranges, OutOfMemory>
    requires few { length keys.now < 2 ^ 32 }
    requires below { (place key : ℕ) → IsKey keys.now place key → key < bound }
    ensures { IfOk result (λ ranges. AreRanges keys.now bound ranges.starts.items ranges.places.items) }
{
    let mut heads = vec![in alloc; None; bound]?;
    let links = link_all(alloc, keys, heads.as_mut_slice())?;
    flatten(alloc, keys, heads.as_slice(), links.as_slice())
}

// Links each place back to the last one before it with the same number.
fn link_all(
    alloc: Global,
    keys: &[Option<u32>],
    heads: &mut [Option<u32>],
) -> Result<Vec<Option<u32>>, OutOfMemory>
    requires few { length keys.now < 2 ^ 32 }
    requires below { (place key : ℕ) → IsKey keys.now place key → key < length heads.old }
    requires none { (key : ℕ) → link_at heads.old key ≡ None }
    ensures long { length heads.new ≡ length heads.old }
    ensures heads { OnOk result ((key : ℕ) → IsLast keys.now key (length keys.now) (link_at heads.new key)) }
    ensures links { IfOk result (λ links. (place key : ℕ) → IsKey keys.now place key
        → IsLast keys.now key place (link_at links.items place)) }
    ensures count { IfOk result (λ links. length links.items ≡ length keys.now) }
{
    let mut links = Vec::new(alloc);
    for place in 0..keys.len() {
        let link = note(keys[place], place as u32, heads);
        links.push(link)?;
    }
    Ok(links)
}

// Notes a place as the last of its number; what was the last before.
fn note(key: Option<u32>, place: u32, heads: &mut [Option<u32>]) -> Option<u32>
    requires { (number : ℕ) → key ≡ Some number → number < length heads.old }
    ensures long { length heads.new ≡ length heads.old }
    ensures was { (number : ℕ) → key ≡ Some number → result ≡ link_at heads.old number }
    ensures same { (number : ℕ) → key ≡ Some number → link_at heads.new number ≡ Some place }
    ensures others { (number : ℕ) → key ≢ Some number → link_at heads.new number ≡ link_at heads.old number }
{
    match key {
        Some(number) => {
            let before = link_of(heads, number as usize);
            heads[number as usize] = Some(place);
            before
        }
        None => None,
    }
}

// The link of a place, none past the end.
fn link_of(links: &[Option<u32>], place: usize) -> Option<u32>
    ensures { result ≡ link_at links.now place }
{
    match links.get(place) {
        Some(link) => *link,
        None => None,
    }
}

// Puts the places of each number one after another.
fn flatten(
    alloc: Global,
    keys: &[Option<u32>],
    heads: &[Option<u32>],
    links: &[Option<u32>],
) -> Result<Ranges, OutOfMemory>
    requires heads { (key : ℕ) → IsLast keys.now key (length keys.now) (link_at heads.now key) }
    requires links { (place key : ℕ) → IsKey keys.now place key
        → IsLast keys.now key place (link_at links.now place) }
    ensures { IfOk result (λ ranges. AreRanges keys.now (length heads.now) ranges.starts.items
        ranges.places.items) }
{
    let mut starts = Vec::new(alloc);
    let mut places = Vec::new(alloc);
    starts.push(0)?;
    for key in 0..heads.len() {
        walk(keys, links, heads[key], key, &mut places)?;
        starts.push(places.len())?;
    }
    Ok(Ranges { starts, places })
}

// Adds the places of a number, from the last back to the first.
fn walk(
    keys: &[Option<u32>],
    links: &[Option<u32>],
    head: Option<u32>,
    key: usize,
    places: &mut Vec<u32>,
) -> Result<(), OutOfMemory>
    requires head { IsLast keys.now key (length keys.now) head }
    requires links { (place key : ℕ) → IsKey keys.now place key
        → IsLast keys.now key place (link_at links.now place) }
    ensures grows { Grows places.old.items places.new.items }
    ensures range { OnOk result (IsRange keys.now key places.new.items (length places.old.items)
        (length places.new.items)) }
{
    let mut link = head;
    for _step in 0..keys.len() {
        let Some(place) = link else {
            return Ok(());
        };
        places.push(place)?;
        link = link_of(links, place as usize);
    }
    Ok(())
}
