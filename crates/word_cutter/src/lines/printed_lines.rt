ghost use Rattle.std.specs.Prelude.{◌≡◌, ◌++◌, ◌∷◌, [], ℕ, List, map, OnOk};
ghost use Rattle.word_cutter.specs.Rows.{behind_blank, row_text, bytes_of_words};
ghost use Rattle.std.specs.List.{flat_map};

use texts::{OutOfMemory, Text};

fn put_behind_blanks(text: &mut Text, words: &[&[u8]]) -> Result<(), OutOfMemory>
    ensures { OnOk result (text.new ≡ text.old ++ flat_map behind_blank (bytes_of_words words.now)) }
{
    for word in words {
        text.push(b' ')?;
        text.append(*word)?;
    }
    Ok(())
}

// Adds a line of these words to the text, with one blank between two of them and LF at the end.
fn put_row(text: &mut Text, words: &[&[u8]]) -> Result<(), OutOfMemory>
    ensures { OnOk result (text.new ≡ text.old ++ row_text (bytes_of_words words.now)) }
{
    if let [first, rest @ ..] = words {
        text.append(*first)?;
        put_behind_blanks(text, rest)?;
    }
    text.push(b'\n')
}

/// Adds a line of two words.
pub fn put_two<'a>(text: &mut Text, a: &'a [u8], b: &'a [u8]) -> Result<(), OutOfMemory>
    ensures { OnOk result (text.new ≡ text.old ++ row_text (a.now ∷ b.now ∷ [])) }
{
    put_row(text, &[a, b])
}

/// Adds a line of three words.
pub fn put_three<'a>(
    text: &mut Text,
    a: &'a [u8],
    b: &'a [u8],
    c: &'a [u8],
) -> Result<(), OutOfMemory>
    ensures { OnOk result (text.new ≡ text.old ++ row_text (a.now ∷ b.now ∷ c.now ∷ [])) }
{
    put_row(text, &[a, b, c])
}

/// Adds a line of four words.
pub fn put_four<'a>(
    text: &mut Text,
    a: &'a [u8],
    b: &'a [u8],
    c: &'a [u8],
    d: &'a [u8],
) -> Result<(), OutOfMemory>
    ensures { OnOk result (text.new ≡ text.old ++ row_text (a.now ∷ b.now ∷ c.now ∷ d.now ∷ [])) }
{
    put_row(text, &[a, b, c, d])
}

/// Adds a line of five words.
pub fn put_five<'a>(
    text: &mut Text,
    a: &'a [u8],
    b: &'a [u8],
    c: &'a [u8],
    d: &'a [u8],
    e: &'a [u8],
) -> Result<(), OutOfMemory>
    ensures { OnOk result (text.new ≡ text.old ++ row_text (a.now ∷ b.now ∷ c.now ∷ d.now ∷ e.now ∷ [])) }
{
    put_row(text, &[a, b, c, d, e])
}
