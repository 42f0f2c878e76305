// Names and numbers as they stand in a text.
ghost use Rattle.std.specs.Prelude.{◌≡◌, ◌++◌, OnOk};
ghost use Rattle.std.specs.Fmt.{decimal};
ghost use Rattle.verilog_tree.specs.Canonical as text_of;

use itoa::Buffer;
use texts::{OutOfMemory, Text};
use verilog_lexicon::keywords::{is_simple_name, reserved_of};

fn is_plain(name: &[u8]) -> bool
    ensures { result ≡ text_of.is_plain name.now }
{
    is_simple_name(name) && reserved_of(name).is_none()
}

/// Adds a name: as it is, or escaped with its blank.
pub fn put_name(text: &mut Text, name: &[u8]) -> Result<(), OutOfMemory>
    ensures { OnOk result (text.new ≡ text.old ++ text_of.name_text name.now) }
{
    if is_plain(name) {
        return text.append(name);
    }
    text.push(b'\\')?;
    text.append(name)?;
    text.push(b' ')
}

/// Adds a number in decimal, without leading zeros.
pub fn put_number(text: &mut Text, number: u32) -> Result<(), OutOfMemory>
    ensures { OnOk result (text.new ≡ text.old ++ decimal number) }
{
    let mut digits = Buffer::new();
    text.append(digits.format(number).as_bytes())
}
