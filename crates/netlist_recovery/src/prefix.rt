// The prefix of what was added.
ghost use Rattle.std.specs.Prelude.{◌≡◌, ◌∷◌, ◌-◌, IfOk, length};
ghost use Rattle.std.specs.Fmt.{decimal};
ghost use Rattle.std.specs.Option.{option_copied};
ghost use Rattle.strip_model.specs.Prefix as model;

use crate::core_items::name_of;
use itoa::Buffer;
use std::alloc::Global;
use texts::{OutOfMemory, Text};
use verilog_tree::Item;

/// What stands before these bytes, if a name ends with them.
pub fn before_end<'a>(end: &[u8], name: &'a [u8]) -> Option<&'a [u8]>
    ensures { option_copied result ≡ model.before_end end.now name.now }
{
    let count = name.len().saturating_sub(end.len());
    if &name[count..] == end {
        Some(&name[..count])
    } else {
        None
    }
}

// `c` and the number of the last item.
fn last_end(alloc: Global, items: &[Item]) -> Result<Text, OutOfMemory>
    ensures { IfOk result (λ end. end ≡ 99 ∷ decimal (length items.now - 1)) }
{
    let mut end = Text::new(alloc);
    end.push(b'c')?;
    let mut digits = Buffer::new();
    end.append(digits.format(items.len().saturating_sub(1)).as_bytes())?;
    Ok(end)
}

// The name of the last item.
fn last_name(items: &[Item]) -> Option<&[u8]>
    ensures { option_copied result ≡ model.last_name items.now }
{
    match items.last() {
        Some(item) => name_of(item),
        None => None,
    }
}

/// What the last name has before `c` and the number of its item.
pub fn prefix_of(alloc: Global, items: &[Item]) -> Result<Option<&[u8]>, OutOfMemory>
    ensures { IfOk result (λ prefix. option_copied prefix ≡ model.prefix_of items.now) }
{
    let end = last_end(alloc, items)?;
    match last_name(items) {
        Some(name) => Ok(before_end(end.as_bytes(), name)),
        None => Ok(None),
    }
}
