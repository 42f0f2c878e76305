ghost use Rattle.std.specs.Prelude.{◌<◌, IfOk};

use crate::line::{LineFault, Piece};
use itoa::Buffer;
use texts::{OutOfMemory, Text};

/// Adds a piece to a text, as often as it says.
pub(crate) fn append_piece(text: &mut Text, piece: Piece) -> Result<(), LineFault> {
    for before in 0..piece.count {
        append_coded(text, piece.coded, before)?;
    }
    if piece.ends_line {
        text.push(b'\n')?;
    }
    Ok(())
}

// Adds once what is coded.
fn append_coded(text: &mut Text, coded: &str, before: u32) -> Result<(), LineFault> {
    let mut parts = coded.split('~');
    if let Some(plain) = parts.next() {
        text.append(plain.as_bytes())?;
    }
    for part in parts {
        append_part(text, part.as_bytes(), before)?;
    }
    Ok(())
}

// Adds what stands after a `~`, up to the next: two hexadecimal digits are a byte, `-` is how often the piece was added
// before, and `#` is one more.
fn append_part(text: &mut Text, part: &[u8], before: u32) -> Result<(), LineFault> {
    let plain = match part {
        [b'-', plain @ ..] => {
            append_number(text, u64::from(before))?;
            plain
        }
        [b'#', plain @ ..] => {
            append_number(text, u64::from(before) + 1)?;
            plain
        }
        [high, low, plain @ ..] => {
            text.push(16 * digit_value(*high)? + digit_value(*low)?)?;
            plain
        }
        _ => return Err(LineFault::BadLine),
    };
    text.append(plain)?;
    Ok(())
}

// The value of a hexadecimal digit.
fn digit_value(digit: u8) -> Result<u8, LineFault>
    ensures { IfOk result (λ value. value < 16) }
{
    match digit {
        b'0'..=b'9' => Ok(digit - b'0'),
        b'a'..=b'f' => Ok(digit - b'a' + 10),
        _ => Err(LineFault::BadLine),
    }
}

fn append_number(text: &mut Text, number: u64) -> Result<(), OutOfMemory> {
    let mut digits = Buffer::new();
    text.append(digits.format(number).as_bytes())
}
