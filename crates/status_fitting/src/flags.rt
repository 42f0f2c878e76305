// Flags by numbers.
ghost use Rattle.std.specs.Prelude.{◌≡◌, ◌↔◌, IfOk, IsTrue, Some, false, replicate, slice_get, true};

use std::alloc::Global;
use texts::OutOfMemory;

/// So many flags, none of which is set.
pub fn no_flags(alloc: Global, count: usize) -> Result<Vec<bool>, OutOfMemory>
    ensures { IfOk result (λ flags. flags.items ≡ replicate count false) }
{
    Ok(vec![in alloc; false; count]?)
}

/// Whether a flag is set.
pub fn is_flagged(flags: &[bool], number: u32) -> bool
    ensures { IsTrue result ↔ (slice_get flags.now number ≡ Some true) }
{
    match flags.get(number as usize) {
        Some(flag) => *flag,
        None => false,
    }
}
