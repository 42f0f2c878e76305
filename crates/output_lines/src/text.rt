// Lines of words, at the end of a text.
ghost use Rattle.std.specs.Prelude.{◌≡◌, ◌++◌, map, OnOk};
ghost use Rattle.std.specs.List.{flat_map};
ghost use Rattle.output_lines.specs.Lines.{blank_word, words_line};

use texts::{OutOfMemory, Text};

/// Adds a word behind a blank.
pub fn add_word(text: &mut Text, word: &[u8]) -> Result<(), OutOfMemory>
    ensures { OnOk result (text.new ≡ text.old ++ blank_word word.now) }
{
    text.append(b" ")?;
    text.append(word)
}

/// Adds words, each behind a blank.
pub fn add_words(text: &mut Text, words: &[&[u8]]) -> Result<(), OutOfMemory>
    ensures { OnOk result (text.new ≡ text.old ++ flat_map blank_word (map (λ w. w.now) words.now)) }
{
    for word in words {
        add_word(text, word)?;
    }
    Ok(())
}

/// Adds a line of words: the first, and others behind a blank each.
#[tactic(auto, unfolding(crate::specs::Lines::words_line))]
pub fn add_line(text: &mut Text, first: &[u8], others: &[&[u8]]) -> Result<(), OutOfMemory>
    ensures { OnOk result (text.new ≡ text.old ++ words_line first.now (map (λ w. w.now) others.now)) }
{
    text.append(first)?;
    add_words(text, others)?;
    text.append(b"\n")
}
