ghost use Rattle.std.specs.Prelude.{◌++◌, map, Some};
ghost use Rattle.std.specs.Fmt.{decimal};
ghost use Rattle.std.specs.List.{flat_map};
ghost use Rattle.output_lines.specs.Puts.{Puts};
ghost use Rattle.output_lines.specs.Lines.{bit_text, field_text, blank_field, blank_word, line_text, words_line};

use crate::field::Field;
use edge_io::sink::Sink;
use edge_io::whole::{WriteFault, put_whole};
use itoa::Buffer;

/// Gives the pieces in order, up to the first that the sink refuses.
pub fn put_pieces<O: Sink>(out: &mut O, pieces: &[&[u8]]) -> Result<(), WriteFault>
    ensures { Puts O.given O.faults out.old out.new (flat_map (λ p. p.now) pieces.now) result }
{
    for piece in pieces {
        let Ok(()) = put_whole(out, piece) else {
            return Err(WriteFault);
        };
    }
    Ok(())
}

// A number in decimal digits, behind these bytes.
fn put_number<O: Sink>(out: &mut O, before: &[u8], number: u64) -> Result<(), WriteFault>
    ensures { Puts O.given O.faults out.old out.new (before.now ++ decimal number) result }
{
    let mut digits = Buffer::new();
    put_pieces(out, &[before, digits.format(number).as_bytes()])
}

// A bit of a vector, behind these bytes.
fn put_bit<O: Sink>(out: &mut O, before: &[u8], name: &[u8], index: u32) -> Result<(), WriteFault>
    ensures { Puts O.given O.faults out.old out.new
        (before.now ++ bit_text name.now (Some index)) result }
{
    let mut digits = Buffer::new();
    put_pieces(
        out,
        &[before, name, b"[", digits.format(index).as_bytes(), b"]"],
    )
}

// A word, behind these bytes.
fn put_field<O: Sink>(out: &mut O, before: &[u8], field: &Field) -> Result<(), WriteFault>
    ensures { Puts O.given O.faults out.old out.new (before.now ++ field_text field.now) result }
{
    match field {
        Field::Word(bytes) => put_pieces(out, &[before, bytes]),
        Field::Number(number) => put_number(out, before, *number),
        Field::Bit { name, index } => put_bit(out, before, name, *index),
    }
}

// Words, each behind a blank.
fn put_fields<O: Sink>(out: &mut O, fields: &[Field]) -> Result<(), WriteFault>
    ensures { Puts O.given O.faults out.old out.new (flat_map blank_field fields.now) result }
{
    for field in fields {
        let Ok(()) = put_field(out, b" ", field) else {
            return Err(WriteFault);
        };
    }
    Ok(())
}

// A number behind a blank.
fn put_blank_number<O: Sink>(out: &mut O, number: &u32) -> Result<(), WriteFault>
    ensures { Puts O.given O.faults out.old out.new (blank_word (decimal number.now)) result }
{
    put_number(out, b" ", u64::from(*number))
}

// Numbers, each behind a blank.
fn put_each<O: Sink>(out: &mut O, numbers: &[u32]) -> Result<(), WriteFault>
    ensures { Puts O.given O.faults out.old out.new
        (flat_map blank_word (map decimal numbers.now)) result }
{
    for number in numbers {
        let Ok(()) = put_blank_number(out, number) else {
            return Err(WriteFault);
        };
    }
    Ok(())
}

/// Gives a line of a word and numbers. It takes no memory.
pub fn put_numbers<O: Sink>(out: &mut O, first: &[u8], numbers: &[u32]) -> Result<(), WriteFault>
    ensures { Puts O.given O.faults out.old out.new
        (words_line first.now (map decimal numbers.now)) result }
{
    let Ok(()) = put_whole(out, first) else {
        return Err(WriteFault);
    };
    let Ok(()) = put_each(out, numbers) else {
        return Err(WriteFault);
    };
    let Ok(()) = put_whole(out, b"\n") else {
        return Err(WriteFault);
    };
    Ok(())
}

/// Gives a line: the words with one blank between them, and LF. It takes no memory.
pub fn put_line<O: Sink>(out: &mut O, first: &Field, others: &[Field]) -> Result<(), WriteFault>
    ensures { Puts O.given O.faults out.old out.new (line_text first.now others.now) result }
{
    let Ok(()) = put_field(out, b"", first) else {
        return Err(WriteFault);
    };
    let Ok(()) = put_fields(out, others) else {
        return Err(WriteFault);
    };
    let Ok(()) = put_whole(out, b"\n") else {
        return Err(WriteFault);
    };
    Ok(())
}
