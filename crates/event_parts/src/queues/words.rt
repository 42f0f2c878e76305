// Bits in words of 64, and words over them that tell which of those have any bit.

ghost use Rattle.std.specs.Prelude.{◌≡◌, ◌≢◌, ◌<◌, ◌≤◌, ◌*◌, ◌^◌, ◌/◌, ℕ, length, slice_index};
ghost use Rattle.event_parts.specs.QueuesLaws.{ClearsBit, SetsBit, HasBit, Sums, bit_of};

/// How many bits a word has.
pub(crate) const WORD: usize = 64;

/// Sets the bit with this number.
pub(crate) fn set_bit(words: &mut [u64], number: usize)
    requires { number < 64 * length words.old }
    ensures { SetsBit number words.old words.new }
{
    words[number / WORD] |= 1 << (number % WORD);
}

/// Clears the bit with this number.
pub(crate) fn clear_bit(words: &mut [u64], number: usize)
    requires { number < 64 * length words.old }
    ensures { ClearsBit number words.old words.new }
{
    words[number / WORD] &= !(1 << (number % WORD));
}

/// The lowest bit that is set in this word.
pub(crate) fn lowest(words: &[u64], place: usize) -> usize
    requires long { length words.now < 2 ^ 32 }
    requires some { 0 < slice_index words.now place }
    ensures there { result / 64 ≡ place }
    ensures set { bit_of words.now result ≡ 1 }
    ensures least { (other : ℕ) → other / 64 ≡ place → bit_of words.now other ≡ 1 → result ≤ other }
{
    place * WORD + words[place].trailing_zeros() as usize
}

/// Sets the bit over a word, which is about to have a bit.
fn note(up: &mut [u64], down: &[u64], place: usize)
    requires sums { Sums up.old down.now }
    requires room { place < length down.now }
    ensures { HasBit place up.old up.new }
{
    if down[place] == 0 {
        set_bit(up, place);
    }
}

/// Sets a bit, and the bit over its word.
fn set_under(up: &mut [u64], down: &mut [u64], number: usize)
    requires sums { Sums up.old down.old }
    requires room { number < 64 * length down.old }
    ensures sums { Sums up.new down.new }
    ensures set { HasBit number down.old down.new }
    ensures long { length up.new ≡ length up.old }
{
    note(up, down, number / WORD);
    set_bit(down, number);
}

/// Sets the bits over a word of the third list, which is about to have a bit.
fn note_under(top: &mut [u64], mid: &mut [u64], low: &[u64], place: usize)
    requires top { Sums top.old mid.old }
    requires mid { Sums mid.old low.now }
    requires room { place < length low.now }
    ensures sums { Sums top.new mid.new }
    ensures set { HasBit place mid.old mid.new }
    ensures long { length top.new ≡ length top.old }
{
    if low[place] == 0 {
        set_under(top, mid, place);
    }
}

/// Sets a bit, and the bits over its word.
pub(crate) fn set_below(top: &mut [u64], mid: &mut [u64], low: &mut [u64], number: usize)
    requires top { Sums top.old mid.old }
    requires mid { Sums mid.old low.old }
    requires room { number < 64 * length low.old }
    ensures top { Sums top.new mid.new }
    ensures mid { Sums mid.new low.new }
    ensures set { SetsBit number low.old low.new }
    ensures top_long { length top.new ≡ length top.old }
    ensures mid_long { length mid.new ≡ length mid.old }
{
    note_under(top, mid, low, number / WORD);
    set_bit(low, number);
}

/// Clears a bit, and the bit over its word where that has no other.
fn clear_under(up: &mut [u64], down: &mut [u64], number: usize)
    requires sums { Sums up.old down.old }
    requires room { number < 64 * length down.old }
    ensures sums { Sums up.new down.new }
    ensures cleared { ClearsBit number down.old down.new }
    ensures long { length up.new ≡ length up.old }
{
    clear_bit(down, number);
    if down[number / WORD] == 0 {
        clear_bit(up, number / WORD);
    }
}

/// Clears a bit, and the bits over its word where that has no other.
pub(crate) fn clear_below(top: &mut [u64], mid: &mut [u64], low: &mut [u64], number: usize)
    requires top { Sums top.old mid.old }
    requires mid { Sums mid.old low.old }
    requires room { number < 64 * length low.old }
    ensures top { Sums top.new mid.new }
    ensures mid { Sums mid.new low.new }
    ensures cleared { ClearsBit number low.old low.new }
    ensures top_long { length top.new ≡ length top.old }
    ensures mid_long { length mid.new ≡ length mid.old }
{
    clear_bit(low, number);
    if low[number / WORD] == 0 {
        clear_under(top, mid, number / WORD);
    }
}
