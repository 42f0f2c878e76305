ghost use Rattle.std.specs.Prelude.{◌≡◌};
ghost use Rattle.output_lines.specs.Lines.{field_text, bit_text};

/// A word of a line.
#[derive(Clone, Copy)]
pub enum Field<'a> {
    /// These bytes.
    Word(&'a [u8]),
    /// A number in decimal digits.
    Number(u64),
    /// A bit of a vector, as `name[index]`.
    Bit { name: &'a [u8], index: u32 },
}

impl<'a> Field<'a> {
    /// A bit of a port or a wire: a scalar is its name alone.
    pub fn of_bit(name: &'a [u8], index: Option<u32>) -> Field<'a>
        ensures { field_text result ≡ bit_text name.now index }
    {
        match index {
            None => Field::Word(name),
            Some(index) => Field::Bit { name, index },
        }
    }
}
