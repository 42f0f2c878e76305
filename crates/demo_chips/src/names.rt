// Names with numbers in them.

ghost use Rattle.std.specs.Prelude.{◌≡◌, ◌++◌, IfOk, OnOk, Some, None};
ghost use Rattle.std.specs.Fmt.{decimal};
ghost use Rattle.demo_chips.specs.Netlists as model;
ghost use Rattle.demo_chips.specs.Plans as plans;

use itoa::Buffer;
use std::alloc::Global;
use texts::{OutOfMemory, Text};
use verilog_tree::Bit;

/// Adds a number's decimal digits.
pub fn put_number(text: &mut Text, number: u32) -> Result<(), OutOfMemory>
    ensures { OnOk result (text.new ≡ text.old ++ decimal number) }
{
    let mut digits = Buffer::new();
    text.append(digits.format(number).as_bytes())
}

/// A number's decimal digits.
pub fn number_word(alloc: Global, number: u32) -> Result<Text, OutOfMemory>
    ensures { IfOk result (λ word. word ≡ decimal number) }
{
    let mut word = Text::new(alloc);
    put_number(&mut word, number)?;
    Ok(word)
}

/// A name, and a number behind it.
pub fn numbered(alloc: Global, name: &[u8], number: u32) -> Result<Text, OutOfMemory>
    ensures { IfOk result (λ word. word ≡ name.now ++ decimal number) }
{
    let mut word = Text::from_bytes(alloc, name)?;
    put_number(&mut word, number)?;
    Ok(word)
}

/// The word of a bit in a plan.
pub fn bit_word(alloc: Global, name: &[u8], index: u32) -> Result<Text, OutOfMemory>
    ensures { IfOk result (λ word. word ≡ plans.bit_word name.now index) }
{
    let mut word = Text::from_bytes(alloc, name)?;
    word.push(b'[')?;
    put_number(&mut word, index)?;
    word.push(b']')?;
    Ok(word)
}

/// A scalar net.
pub fn scalar(alloc: Global, name: &[u8]) -> Result<Bit, OutOfMemory>
    ensures { IfOk result (λ bit. bit ≡ model.scalar name.now) }
{
    Ok(Bit {
        net: Text::from_bytes(alloc, name)?,
        index: None,
    })
}

/// The bit of a vector with this index.
pub fn bit(alloc: Global, name: &[u8], index: u32) -> Result<Bit, OutOfMemory>
    ensures { IfOk result (λ bit. bit ≡ model.bit_of name.now index) }
{
    Ok(Bit {
        net: Text::from_bytes(alloc, name)?,
        index: Some(index),
    })
}
